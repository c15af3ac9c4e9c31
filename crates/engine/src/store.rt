// Working memory: a value for each place and cell, over a lent slice.
// Knows nothing of why a hop is let through, and of measures only their laws.
ghost use Rattle.std.specs.Prelude.{◌≡◌, ◌*◌, ◌<◌, ◌≤◌, length};
ghost use Rattle.engine.specs.Tables.{Filled};
ghost use Rattle.engine.specs.Ways.{rest_from, way_of};

use crate::roster::Roster;
use crate::verdicts::CELLS;
use measure::algebra::Measure;

/// One value for each place and cell, in a slice lent by the caller: from one place on, what all ways on
/// from the cell to the goal come to.
// Public, as what it holds is one of the engine's promises; no member is. `from` is a number that only contracts
// read: a ghost field states a fact, and can hold none.
#[derive(Drop)]
pub struct Store<'a, M: Measure> {
    pub(crate) roster: &'a Roster<'a>,
    pub(crate) goal: usize,
    pub(crate) from: usize,
    pub(crate) cells: &'a [M],
    ghost goal_is_cell: { goal < 48 },
    ghost room: { length cells.now ≡ 48 * roster.now.places },
    ghost filled: { Filled M.ring (way_of roster.now) goal roster.now.places from cells.now },
}

impl<M: Measure> Store<'_, M> {
    /// What all ways on from a cell come to, at a place that is filled.
    pub(crate) fn get(&self, place: usize, cell: usize) -> M
        requires { (self.now.from ≤ place) × ((place < self.now.roster.now.places) × (cell < 48)) }
        ensures { result ≡ rest_from M.ring self.now.roster.now self.now.goal place cell }
    {
        self.cells[CELLS * place + cell]
    }
}
