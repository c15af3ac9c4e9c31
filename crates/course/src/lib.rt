// Courses of calls, played on one sheet from blank. Knows nothing of programs.
#![tactic(auto)]

pub mod answer;
mod asking;
pub mod call;
mod changing;
pub mod choices;
mod consulting;
pub mod memory;
pub mod running;
pub mod state;
