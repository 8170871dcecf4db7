// The slips that this trade makes, which the bench table shows up: definitions and theorems, no code.
#![tactic(auto)]

pub mod promises;
