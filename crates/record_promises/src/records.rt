// The promises of records: theorems about the definitions, each with a function that stands for it.
ghost use Rattle.record_promises.specs.Records.{ReadBack, WrittenBack, OneToOne, Length, ExampleRecord};

// An accepted spectrum is written where there is room, and its record reads back.
pub fn promise_read_back()
    ensures { ReadBack }
{}

// An accepted record, written again, gives its own bytes.
pub fn promise_written_back()
    ensures { WrittenBack }
{}

// Two accepted records that read alike are the same bytes.
pub fn promise_one_to_one()
    ensures { OneToOne }
{}

// The length of a record.
pub fn promise_length()
    ensures { Length }
{}

// The rules' own example.
pub fn promise_example_record()
    ensures { ExampleRecord }
{}
