// The C boundary: every open function of the library under a plain name, with a flat answer by value.
#![tactic(auto)]

pub mod flat;
mod flatten;
pub mod lights;
pub mod panels;
pub mod records;
