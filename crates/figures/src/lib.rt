// The bench figures: one table of inputs and what they must give, and one claim about it.
#![tactic(auto)]

pub mod promises;
