// The promises of the page: theorems about the definition, each with a function that stands for it.
ghost use Rattle.record_promises.specs.Pages.{Page, Dark, ExamplePage};

/// Whatever the bytes are, the page is not blank, ends with a newline and has at most 99 bytes.
pub fn promise_page()
    ensures { Page }
{}

/// A room with no light has a page of zeros and dashes.
pub fn promise_dark()
    ensures { Dark }
{}

/// The rules' own example.
pub fn promise_example_page()
    ensures { ExamplePage }
{}
