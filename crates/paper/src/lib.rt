// Writing from a sheet: the page of its theme, and a combination of its list for a line.
// Knows nothing of books or of how a line is found.
#![tactic(auto)]

mod columns;
pub mod combination;
pub mod page;
