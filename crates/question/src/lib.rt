// The questions asked of a closed sheet, over any book.
// Knows nothing of pages or programs.
#![tactic(auto)]

pub mod examples;
pub mod finding;
pub mod trying;
pub mod weighing;
