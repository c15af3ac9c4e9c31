// When a line stands: the compass and the trial of a question, and how the line meets the theme.
// Knows nothing of measures, and of books only that they say yes or no.
#![tactic(auto)]

pub mod asked;
pub mod asking;
pub mod checking;
pub mod compass;
mod meeting;
pub mod trying;
