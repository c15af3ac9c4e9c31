// Closed walks over cells: weighed, traced and counted over any measure.
// Knows cells and places, and nothing of why one cell may follow another.
// `n` is how many places there are and `k` a line's number, as in the definitions that the clauses cite. What memory
// and line hold afterwards is told by clauses of each call: it is a matter of before and after, which no type states.
#![tactic(auto)]

mod fill;
mod fit;
pub mod passage;
pub mod picking;
mod roster;
pub mod store;
pub mod tracing;
pub mod unfit;
pub mod verdicts;
pub mod weighing;
