// What is promised of the bench figures.
ghost use Rattle.figures.specs.Promises.{Bench};

// Each row of the table is given as it says.
pub fn promise_bench()
    ensures { Bench }
{}
