// What is promised of mixed light, for any weights and any line.
ghost use Rattle.mixing.specs.Promises.{Laws};

// The laws of mixing hold.
pub fn promise_laws()
    ensures { Laws }
{}
