// The promises of records and of the page: theorems about the definitions, each with a function that stands for it.
#![tactic(auto)]

pub mod pages;
pub mod records;
