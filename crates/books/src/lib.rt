// The books that judge counterpoint: strict, free, and the layers over any book.
// Knows nothing of themes, lines or sheets.
#![tactic(auto)]

pub mod examples;
pub mod free;
mod motion;
pub mod pile;
mod raising;
pub mod strict;
pub mod vertical;
