// What sheets, lines and questions are: the words of refusals, settings, combinations and trials, and in specs/
// the definitions and the law that every call's contract cites. Knows nothing of memory or of calls.
#![tactic(auto)]

pub mod combination;
pub mod refusal;
pub mod setting;
pub mod trial;
