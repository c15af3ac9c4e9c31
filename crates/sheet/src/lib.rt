// Sheets: a theme, the combinations listed for it, and the keys fixed at its places.
// And the cells that make a line. Knows nothing of books or compasses.
#![tactic(auto)]

mod asked;
pub mod cells;
pub mod draft;
