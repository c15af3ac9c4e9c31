// The question what all closed lines that are let through weigh together.
// Knows nothing of why a hop is let through, and of measures only their laws.
ghost use Rattle.std.specs.Prelude.{◌≡◌, ◌*◌, ◌<◌, ◌≤◌, false, length, drop, is_ok};
ghost use Rattle.engine.specs.Answers.{first_no, room_questions, unless};
ghost use Rattle.engine.specs.Lines.{roster};
ghost use Rattle.engine.specs.Weights.{joined_weight};

use crate::fit::room_for;
use crate::passage::Passage;
use crate::roster::Roster;
use crate::unfit::Unfit;
use crate::verdicts::{CELLS, Verdicts};
use measure::algebra::Measure;

/// The joined weight where there is room for the working values.
// A function of its own: the table of verdicts is among its locals, which are cleared only once the arguments are checked.
fn weigh_lines<M: Measure, P: Passage>(passage: &P, places: usize, cells: &mut [M]) -> M
    requires { (0 < places) × ((places ≤ 64) × (length cells.old ≡ 48 * places)) }
    ensures { result ≡ joined_weight M.ring places (roster (P.way passage.now) places) }
{
    let verdicts = Verdicts::of(passage, places);
    Roster::of(&verdicts, places).weigh(cells)
}

/// The joined weight of all lines of `n` cells that go round, none if there is none.
/// Refuses where there are not 1 to 64 places, or not 48 values of memory for each.
pub fn weigh<M: Measure, P: Passage>(passage: &P, n: usize, memory: &mut [M]) -> Result<M, Unfit>
    ensures answer { result ≡ unless (first_no (room_questions n (length memory.old))) (joined_weight M.ring n (roster (P.way passage.now) n)) }
    ensures beyond { drop (48 * n) memory.new ≡ drop (48 * n) memory.old }
    ensures refused { is_ok result ≡ false → memory.new ≡ memory.old }
{
    room_for(n, memory.len())?;
    Ok(weigh_lines(passage, n, &mut memory[..CELLS * n]))
}
