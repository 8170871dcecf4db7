// What is promised of the slips.
ghost use Rattle.slips.specs.Promises.{Slips};

// Each slip gives another number at a row of the bench table.
pub fn promise_slips()
    ensures { Slips }
{}
