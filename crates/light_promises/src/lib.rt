// The promises of lights and of panels: theorems about the definitions, each with a function that stands for it.
#![tactic(auto)]

pub mod lights;
pub mod panels;
