// The theme on the first barrel, and the page that it is read from and written to.
// Knows nothing of books, lines or sheets.
#![tactic(auto)]

pub mod field;
pub mod place;
mod reading;
pub mod refusal;
mod row;
pub mod theme;
pub mod writing;
