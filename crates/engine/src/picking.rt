// The question which line has a number, counted from 0 in order.
// Knows nothing of why a hop is let through.
ghost use Rattle.std.specs.Prelude.{◌≡◌, ◌+◌, ◌-◌, ◌*◌, ◌<◌, ◌≤◌, length, drop, is_some, is_ok, false, Some, IfSome};
ghost use Rattle.engine.specs.Answers.{first_no, pick_questions, unless, unless_written, written};
ghost use Rattle.engine.specs.Lines.{roster};
ghost use Rattle.engine.specs.Tables.{Filled};
ghost use Rattle.engine.specs.Tails.{begun_by, by_cell};
ghost use Rattle.engine.specs.Turns.{IsTurn};
ghost use Rattle.engine.specs.Ways.{way_of};
ghost use Rattle.measure.specs.Numbers.{number_ring};
ghost use Rattle.std.specs.List.{slice_get};

use crate::fit::pick_for;
use crate::passage::Passage;
use crate::roster::Roster;
use crate::store::Store;
use crate::unfit::Unfit;
use crate::verdicts::{CELLS, Verdicts};
use measure::number::Number;

/// A cell to go on by, and a line's number among those that do.
#[derive(Clone, Copy)]
struct Turn {
    cell: usize,
    number: u32,
}

impl Store<'_, Number> {
    /// The cell by which the line with a number goes on, if there are so many.
    fn next_turn(&self, place: usize, turn: Turn) -> Option<Turn>
        requires { (self.now.from ≤ place + 1) × ((place + 1 < self.now.roster.now.places) × ((turn.cell < 48) × (turn.number < 1000000000))) }
        ensures { IsTurn (by_cell (way_of self.now.roster.now) self.now.goal (self.now.roster.now.places - 1 - (place + 1)) place turn.cell) turn.number result }
    {
        // a loop, as the number goes down by the lines of each cell passed
        let mut number = turn.number;
        for cell in 0..CELLS {
            if self.roster.verdicts.may(place, turn.cell, cell) {
                let count = self.get(place + 1, cell).value;
                if number < count {
                    return Some(Turn { cell, number });
                }
                number -= count;
            }
        }
        None
    }

    /// Writes the line with a number among those from the goal on.
    fn trace_number(&self, number: u32, line: &mut [u8])
        requires bounds { (self.now.from ≡ 0) × ((length line.old ≡ self.now.roster.now.places) × (number < 1000000000)) }
        requires among { number < length (begun_by (way_of self.now.roster.now) (self.now.roster.now.places - 1) self.now.goal) }
        ensures { slice_get (begun_by (way_of self.now.roster.now) (self.now.roster.now.places - 1) self.now.goal) number ≡ Some line.new }
    {
        let mut turn = Turn {
            cell: self.goal,
            number,
        };
        line[0] = turn.cell as u8;
        // by index, as no element is known after `iter_mut`; the turn goes on from place to place
        for place in 0..self.roster.places - 1 {
            turn = self.next_turn(place, turn).unwrap();
            line[place + 1] = turn.cell as u8;
        }
    }
}

impl Roster<'_> {
    /// The start cell of the line with a number, if there are so many, for which the cells are then filled.
    fn first_turn(&self, cells: &mut [Number], k: u32) -> Option<Turn>
        requires { (k < 1000000000) × (length cells.old ≡ 48 * self.now.places) }
        ensures turn { IsTurn (begun_by (way_of self.now) (self.now.places - 1)) k result }
        ensures filled { IfSome result (λ turn. Filled number_ring (way_of self.now) turn.cell self.now.places 0 cells.new) }
    {
        // a loop, as the number goes down by the lines of each cell passed, and each cell fills the cells anew
        let mut number = k;
        for cell in 0..CELLS {
            let count = self.fill(cells, cell).value;
            if number < count {
                return Some(Turn { cell, number });
            }
            number -= count;
        }
        None
    }

    /// Writes the line with a number, if there are so many, and says whether there are.
    fn pick_line(&self, cells: &mut [Number], line: &mut [u8], k: u32) -> bool
        requires { (k < 1000000000) × ((length cells.old ≡ 48 * self.now.places) × (length line.old ≡ self.now.places)) }
        ensures answer { result ≡ is_some (slice_get (roster (way_of self.now) self.now.places) k) }
        ensures line { line.new ≡ written (slice_get (roster (way_of self.now) self.now.places) k) line.old }
    {
        let Some(start) = self.first_turn(cells, k) else {
            return false;
        };
        let store = Store {
            roster: &*self,
            goal: start.cell,
            from: 0,
            cells,
        };
        store.trace_number(start.number, line);
        true
    }
}

/// The same, asked of a passage, where there is room for the working values and the line.
// A function of its own: the table of verdicts is among its locals, which are cleared only once the arguments are checked.
fn write_picked<P: Passage>(
    passage: &P,
    places: usize,
    cells: &mut [Number],
    line: &mut [u8],
    k: u32,
) -> bool
    requires { (0 < places) × ((places ≤ 64) × ((k < 1000000000) × ((length cells.old ≡ 48 * places) × (length line.old ≡ places)))) }
    ensures answer { result ≡ is_some (slice_get (roster (P.way passage.now) places) k) }
    ensures line { line.new ≡ written (slice_get (roster (P.way passage.now) places) k) line.old }
{
    let verdicts = Verdicts::of(passage, places);
    Roster::of(&verdicts, places).pick_line(cells, line, k)
}

/// Writes the line of `n` cells that goes round and has the number `k`, counted from 0 in order, and says
/// whether there is one. Refuses where there are not 1 to 64 places, not 48 values of memory for each, not
/// `n` cells in the line buffer, or where the number is over 999,999,999.
// A bool and no Option, as the line itself stands in the buffer.
pub fn pick<P: Passage>(
    passage: &P,
    n: usize,
    memory: &mut [Number],
    line: &mut [u8],
    k: u32,
) -> Result<bool, Unfit>
    ensures answer { result ≡ unless (first_no (pick_questions n (length memory.old) (length line.old) k)) (is_some (slice_get (roster (P.way passage.now) n) k)) }
    ensures line { line.new ≡ unless_written (first_no (pick_questions n (length memory.old) (length line.old) k)) (slice_get (roster (P.way passage.now) n) k) line.old }
    ensures beyond { drop (48 * n) memory.new ≡ drop (48 * n) memory.old }
    ensures refused { is_ok result ≡ false → memory.new ≡ memory.old }
{
    pick_for(n, memory.len(), line.len(), k)?;
    Ok(write_picked(passage, n, &mut memory[..CELLS * n], &mut line[..n], k))
}
