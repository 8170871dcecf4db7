// What is promised of the tables.
ghost use Rattle.tables.specs.Promises.{Columns};

// The length, exact sum and largest entry of each table, the sums under each illuminant, that the code loses no digit, and the
// sums that are printed.
pub fn promise_columns()
    ensures { Columns }
{}
