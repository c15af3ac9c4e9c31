// Measures: what a closed line is weighed by, as laws and as three measures that keep them.
// Knows nothing of lines or cells.
#![tactic(auto)]

pub mod algebra;
pub mod movement;
pub mod number;
pub mod possible;
