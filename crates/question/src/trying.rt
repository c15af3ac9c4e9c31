// A question asked under a trial. The trial ends with the question, by whichever way.
ghost use Rattle.std.specs.Prelude.{◌≡◌, ◌*◌, false, length, drop, is_ok, Some};
ghost use Rattle.theme.specs.Refusals.{answer};
ghost use Rattle.rules.specs.Plain.{places_of};
ghost use Rattle.rules.specs.Compasses.{with_trial};
ghost use Rattle.rules.specs.Questions.{trial_no, count_of, under};

use super::weighing::count;
use counterpoint::book::Book;
use measure::number::Number;
use rules::refusal::Refusal;
use rules::trial::Trial;
use sheet::draft::Closed;
use standing::asking::Asking;
use standing::compass::Compass;
use standing::trying::Trying;

/// The number of standing lines that have a tried key at a place, capped at 1,000,000,000.
/// Afterwards the compass is as it was, with the trial that was in force before.
pub fn count_trying<B: Book>(
    sheet: &Closed,
    book: &B,
    compass: &mut Compass,
    trial: Trial,
    memory: &mut [Number],
) -> Result<u32, Refusal>
    ensures answer { result ≡ answer (count_of (under sheet.now (with_trial compass.old (Some trial)) (B.admits book.now) (B.allows book.now))) (trial_no sheet.now compass.old trial (length memory.old)) }
    ensures compass { compass.new ≡ compass.old }
    ensures refused { is_ok result ≡ false → memory.new ≡ memory.old }
    ensures beyond { drop (48 * places_of sheet.now) memory.new ≡ drop (48 * places_of sheet.now) memory.old }
{
    compass.inquire(trial)?;
    let former = compass.enter(trial);
    let trying = Trying { compass, former };
    let asking = Asking {
        sheet,
        book,
        compass: trying.compass,
    };
    count(&asking, memory)
}
