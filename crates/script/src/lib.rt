// Scripts of calls: what their lines say, what questions are handed, and how answers are shown.
// Knows nothing of files or of how a course is played.
#![tactic(auto)]

pub mod book;
pub mod fault;
pub mod gathering;
pub mod handing;
pub mod parsing;
pub mod shown;
pub mod statement;
pub mod step;
