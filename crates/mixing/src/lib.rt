// What mixing light does to any reading that is a nearest quotient of weighted sums: definitions and theorems, no code.
#![tactic(auto)]

pub mod promises;
