// The question which line is the first of the joined weight, over a choosing measure.
// Knows nothing of why a hop is let through, and of measures only their laws.
ghost use Rattle.std.specs.Prelude.{◌≡◌, ◌+◌, ◌-◌, ◌*◌, ◌<◌, ◌≤◌, false, length, drop, is_some, is_ok, Some, IfSome};
ghost use Rattle.engine.specs.Answers.{first_no, line_questions, unless, unless_written, written};
ghost use Rattle.engine.specs.Lines.{roster};
ghost use Rattle.engine.specs.Tables.{Filled};
ghost use Rattle.engine.specs.Tails.{attains, best_from};
ghost use Rattle.engine.specs.Turns.{IsFirst};
ghost use Rattle.engine.specs.Ways.{lines_from, way_of};
ghost use Rattle.engine.specs.Weights.{first_best};

use crate::fill::step_between;
use crate::fit::line_for;
use crate::passage::Passage;
use crate::roster::Roster;
use crate::store::Store;
use crate::unfit::Unfit;
use crate::verdicts::{CELLS, Verdicts};
use measure::algebra::Choosing;

impl<M: Choosing> Store<'_, M> {
    /// The first cell by which the way goes on to a line of the total weight.
    fn next_best(&self, place: usize, cell: usize, prefix: M, total: M) -> Option<usize>
        requires { (self.now.from ≤ place + 1) × ((place + 1 < self.now.roster.now.places) × (cell < 48)) }
        ensures { IsFirst (attains M.ring M.picks (way_of self.now.roster.now) self.now.goal (self.now.roster.now.places - 1 - (place + 1)) place cell prefix total) result }
    {
        // a loop: tried with `find`, whose closure needs clauses of its own that say as much as the invariant
        for next in 0..CELLS {
            if self.roster.verdicts.may(place, cell, next) {
                let after = self.get(place + 1, next);
                let weight = prefix.chain(step_between(cell, next)).chain(after);
                if weight.chooses(total) {
                    return Some(next);
                }
            }
        }
        None
    }

    /// Writes the first line from the goal on that comes to the total.
    fn trace(&self, total: M, line: &mut [u8])
        requires bounds { (self.now.from ≡ 0) × (length line.old ≡ self.now.roster.now.places) }
        requires some { M.picks M.ring.none total ≡ false }
        requires attained { lines_from M.ring self.now.roster.now self.now.goal ≡ total }
        ensures { best_from M.ring M.picks (way_of self.now.roster.now) (self.now.roster.now.places - 1) total self.now.goal ≡ Some line.new }
    {
        let mut cell = self.goal;
        let mut prefix = M::ONE;
        line[0] = cell as u8;
        // by index, as no element is known after `iter_mut`; cell and prefix go on from place to place
        for place in 0..self.roster.places - 1 {
            let next = self.next_best(place, cell, prefix, total).unwrap();
            line[place + 1] = next as u8;
            prefix = prefix.chain(step_between(cell, next));
            cell = next;
        }
    }
}

impl Roster<'_> {
    /// The first start cell whose lines come to the total, for which the cells are then filled.
    fn best_start<M: Choosing>(&self, cells: &mut [M], total: M) -> Option<usize>
        requires { length cells.old ≡ 48 * self.now.places }
        ensures start { IsFirst (λ c. M.picks (lines_from M.ring self.now c) total) result }
        ensures filled { IfSome result (λ start. Filled M.ring (way_of self.now) start self.now.places 0 cells.new) }
    {
        // a loop, as each start cell fills the cells anew
        for start in 0..CELLS {
            if self.fill(cells, start).chooses(total) {
                return Some(start);
            }
        }
        None
    }

    /// Writes the first line of the joined weight, if there is a line at all, and says whether there is.
    fn first_line<M: Choosing>(&self, cells: &mut [M], line: &mut [u8]) -> bool
        requires { (length cells.old ≡ 48 * self.now.places) × (length line.old ≡ self.now.places) }
        ensures answer { result ≡ is_some (first_best M.ring M.picks self.now.places (roster (way_of self.now) self.now.places)) }
        ensures line { line.new ≡ written (first_best M.ring M.picks self.now.places (roster (way_of self.now) self.now.places)) line.old }
    {
        let total: M = self.weigh(cells);
        if M::NONE.chooses(total) {
            return false;
        }
        let goal = self.best_start(cells, total).unwrap();
        let store = Store {
            roster: &*self,
            goal,
            from: 0,
            cells,
        };
        store.trace(total, line);
        true
    }
}

/// The same, asked of a passage, where there is room for the working values and the line.
// A function of its own: the table of verdicts is among its locals, which are cleared only once the arguments are checked.
fn write_first<M: Choosing, P: Passage>(
    passage: &P,
    places: usize,
    cells: &mut [M],
    line: &mut [u8],
) -> bool
    requires { (0 < places) × ((places ≤ 64) × ((length cells.old ≡ 48 * places) × (length line.old ≡ places))) }
    ensures answer { result ≡ is_some (first_best M.ring M.picks places (roster (P.way passage.now) places)) }
    ensures line { line.new ≡ written (first_best M.ring M.picks places (roster (P.way passage.now) places)) line.old }
{
    let verdicts = Verdicts::of(passage, places);
    Roster::of(&verdicts, places).first_line(cells, line)
}

/// Writes the first line of `n` cells that goes round and whose weight is the joined weight of all of them,
/// and says whether there is one. Refuses where there are not 1 to 64 places, not 48 values of memory for
/// each, or not `n` cells in the line buffer.
// A bool and no Option, as the line itself stands in the buffer.
pub fn first<M: Choosing, P: Passage>(
    passage: &P,
    n: usize,
    memory: &mut [M],
    line: &mut [u8],
) -> Result<bool, Unfit>
    ensures answer { result ≡ unless (first_no (line_questions n (length memory.old) (length line.old))) (is_some (first_best M.ring M.picks n (roster (P.way passage.now) n))) }
    ensures line { line.new ≡ unless_written (first_no (line_questions n (length memory.old) (length line.old))) (first_best M.ring M.picks n (roster (P.way passage.now) n)) line.old }
    ensures beyond { drop (48 * n) memory.new ≡ drop (48 * n) memory.old }
    ensures refused { is_ok result ≡ false → memory.new ≡ memory.old }
{
    line_for(n, memory.len(), line.len())?;
    Ok(write_first(passage, n, &mut memory[..CELLS * n], &mut line[..n]))
}
