// Filling the store for one start cell: what all ways on from each place and cell come to.
// Knows nothing of why a hop is let through, and of measures only their laws.
ghost use Rattle.std.specs.Prelude.{◌≡◌, ◌+◌, ◌-◌, ◌*◌, ◌<◌, ◌≤◌, length};
ghost use Rattle.engine.specs.Lines.{leap};
ghost use Rattle.engine.specs.Tables.{Filled, crossing, round};
ghost use Rattle.engine.specs.Ways.{lines_from, rest_from, way_of};

use crate::passage::Passage;
use crate::roster::Roster;
use crate::store::Store;
use crate::verdicts::{CELLS, says};
use measure::algebra::Measure;

/// The step between two cells: a cell's key is half of it. What else a key is the engine does not know.
pub(crate) fn step_between<M: Measure>(cell: usize, next: usize) -> M
    requires { (cell < 48) × (next < 48) }
    ensures { result ≡ M.ring.step (leap cell next) }
{
    M::step((cell / 2).abs_diff(next / 2) as u8)
}

impl<M: Measure> Store<'_, M> {
    /// All ways on from a cell that is not at the last place, the place after it being filled.
    fn onward(&self, place: usize, cell: usize) -> M
        requires { (self.now.from ≤ place + 1) × ((place + 1 < self.now.roster.now.places) × (cell < 48)) }
        ensures { result ≡ rest_from M.ring self.now.roster.now self.now.goal place cell }
    {
        let mut total = M::NONE;
        let word = self.roster.verdicts.word(place, cell);
        // an empty word lets nothing through
        if word == 0 {
            return total;
        }
        for next in 0..CELLS {
            if says(word, next) {
                let after = self.get(place + 1, next);
                total = total.join(step_between::<M>(cell, next).chain(after));
            }
        }
        total
    }

    /// The way on from a cell at the last place: the step over the seam to the goal.
    fn over_seam(&self, place: usize, cell: usize) -> M
        requires { cell < 48 }
        ensures { result ≡ crossing M.ring (way_of self.now.roster.now) place cell self.now.goal }
    {
        if self.roster.verdicts.may(place, cell, self.goal) {
            step_between(cell, self.goal)
        } else {
            M::NONE
        }
    }

    /// All ways on from a cell, the places after it being filled.
    fn value(&self, place: usize, cell: usize) -> M
        requires { (self.now.from ≤ place + 1) × ((place < self.now.roster.now.places) × (cell < 48)) }
        ensures { result ≡ rest_from M.ring self.now.roster.now self.now.goal place cell }
    {
        if place + 1 < self.roster.places {
            self.onward(place, cell)
        } else {
            self.over_seam(place, cell)
        }
    }
}

impl Roster<'_> {
    /// Fills a place, the places after it being filled.
    fn fill_place<M: Measure>(&self, cells: &mut [M], goal: usize, place: usize)
        requires bounds { (place < self.now.places) × ((goal < 48) × (length cells.old ≡ 48 * self.now.places)) }
        requires filled { Filled M.ring (way_of self.now) goal self.now.places (place + 1) cells.old }
        ensures { Filled M.ring (way_of self.now) goal self.now.places place cells.new }
    {
        // by index, as no element is known after `iter_mut`
        for cell in 0..CELLS {
            let store = Store {
                roster: &*self,
                goal,
                from: place + 1,
                cells,
            };
            let value = store.value(place, cell);
            cells[CELLS * place + cell] = value;
        }
    }

    /// Fills all places for a start cell, from the last one back, and gives what its lines come to.
    pub(crate) fn fill<M: Measure>(&self, cells: &mut [M], start: usize) -> M
        requires { (start < 48) × (length cells.old ≡ 48 * self.now.places) }
        ensures filled { Filled M.ring (way_of self.now) start self.now.places 0 cells.new }
        ensures value { result ≡ lines_from M.ring self.now start }
    {
        for place in (0..self.places).rev() {
            self.fill_place(cells, start, place);
        }
        cells[start]
    }

    /// What a start cell's lines come to, with no filling where no cell may follow it.
    fn weigh_start<M: Measure>(&self, cells: &mut [M], start: usize) -> M
        requires { (start < 48) × (length cells.old ≡ 48 * self.now.places) }
        ensures { result ≡ lines_from M.ring self.now start }
    {
        // an empty word lets nothing through
        if self.verdicts.word(0, start) == 0 {
            return M::NONE;
        }
        self.fill(cells, start)
    }

    /// What all lines come to.
    pub(crate) fn weigh<M: Measure>(&self, cells: &mut [M]) -> M
        requires { length cells.old ≡ 48 * self.now.places }
        ensures { result ≡ round M.ring (way_of self.now) self.now.places }
    {
        let mut total = M::NONE;
        // a loop, as each start cell fills the cells anew
        for start in 0..CELLS {
            total = total.join(self.weigh_start(cells, start));
        }
        total
    }
}
