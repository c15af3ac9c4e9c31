// Two-voice counterpoint: intervals, moments, successions, and what a book that judges them is.
// Knows nothing of the rules of any one book.
#![tactic(auto)]

pub mod book;
pub mod interval;
pub mod kinds;
pub mod moments;
pub mod refusal;
