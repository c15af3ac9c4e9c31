// The joined weight of the standing lines, over any measure, and their number.
ghost use Rattle.std.specs.Prelude.{◌≡◌, ◌*◌, false, length, drop, is_ok};
ghost use Rattle.theme.specs.Refusals.{first_no, answer};
ghost use Rattle.rules.specs.Plain.{places_of};
ghost use Rattle.rules.specs.Courses.{Count, Weigh, closed_at};
ghost use Rattle.rules.specs.Faults.{Kept, told_number, told_weight, unweighed};
ghost use Rattle.rules.specs.Laws.{ListedExactly};
ghost use Rattle.rules.specs.Questions.{weigh_questions, count_of, weight_of};
ghost use Rattle.standing.specs.Asking.{asked_by, handed_by};

use counterpoint::book::Book;
use measure::algebra::Measure;
use measure::number::Number;
use rules::refusal::Refusal;
use standing::asking::Asking;

/// The joined weight of all standing lines, none where no line stands.
pub fn weigh<B: Book, M: Measure>(asking: &Asking<'_, B>, memory: &mut [M]) -> Result<M, Refusal>
    ensures answer { result ≡ answer (weight_of M.ring (asked_by B.admits B.allows asking.now)) (first_no (weigh_questions asking.now.sheet.now asking.now.compass.now (length memory.old))) }
    ensures law { ListedExactly (asked_by B.admits B.allows asking.now) }
    ensures course { Kept M.ring (closed_at asking.now.sheet.now) (Weigh (handed_by B.admits B.allows asking.now) (length memory.old)) (told_weight result) (closed_at asking.now.sheet.now) }
    ensures beyond { drop (48 * places_of asking.now.sheet.now) memory.new ≡ drop (48 * places_of asking.now.sheet.now) memory.old }
    ensures refused { is_ok result ≡ false → memory.new ≡ memory.old }
{
    let places = asking.check_trial()?;
    Ok(engine::weighing::weigh(asking, places, memory)?)
}

/// The number of standing lines, capped at 1,000,000,000.
pub fn count<B: Book>(asking: &Asking<'_, B>, memory: &mut [Number]) -> Result<u32, Refusal>
    ensures answer { result ≡ answer (count_of (asked_by B.admits B.allows asking.now)) (first_no (weigh_questions asking.now.sheet.now asking.now.compass.now (length memory.old))) }
    ensures law { ListedExactly (asked_by B.admits B.allows asking.now) }
    ensures course { Kept unweighed (closed_at asking.now.sheet.now) (Count (handed_by B.admits B.allows asking.now) (length memory.old)) (told_number result) (closed_at asking.now.sheet.now) }
    ensures beyond { drop (48 * places_of asking.now.sheet.now) memory.new ≡ drop (48 * places_of asking.now.sheet.now) memory.old }
    ensures refused { is_ok result ≡ false → memory.new ≡ memory.old }
{
    let number = weigh(asking, memory)?;
    Ok(number.value)
}
