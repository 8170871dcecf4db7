// A row of light weighed by the curves, alone and under an illuminant.
#![tactic(auto)]

pub mod lit;
pub mod weigh;
