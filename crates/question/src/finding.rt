// The questions that give a line: the first that stands, the one that moves least, the one with a number.
ghost use Rattle.std.specs.Prelude.{◌≡◌, ◌*◌, ◌≤◌, length, take, drop, Some, None};
ghost use Rattle.theme.specs.Refusals.{first_no, answer};
ghost use Rattle.engine.specs.Answers.{written};
ghost use Rattle.rules.specs.declared.refusal.Refusal.{Refusal};
ghost use Rattle.rules.specs.Plain.{places_of, unless};
ghost use Rattle.rules.specs.Courses.{Decide, Least, Pick, closed_at};
ghost use Rattle.rules.specs.Faults.{Kept, told_line, unweighed};
ghost use Rattle.rules.specs.Questions.{line_questions, pick_questions, decide_no, least_no, pick_no, first_standing, least_standing, picked};
ghost use Rattle.rules.specs.Laws.{Decided, LeastFound, Picked};
ghost use Rattle.standing.specs.Asking.{asked_by, handed_by};
ghost use Rattle.question.specs.Fits.{best_standing, best_no};

use counterpoint::book::Book;
use measure::algebra::Choosing;
use measure::movement::Movement;
use measure::number::Number;
use measure::possible::Possible;
use rules::refusal::Refusal;
use standing::asking::Asking;

// Writes the first standing line of the joined weight to the front of the line buffer, over any choosing measure.
fn find_first<B: Book, M: Choosing>(
    asking: &Asking<'_, B>,
    memory: &mut [M],
    line: &mut [u8],
) -> Result<(), Refusal>
    ensures answer { result ≡ answer tt (best_no M.ring M.picks (asked_by B.admits B.allows asking.now) (length memory.old) (length line.old)) }
    ensures line { line.new ≡ unless (best_no M.ring M.picks (asked_by B.admits B.allows asking.now) (length memory.old) (length line.old)) (written (best_standing M.ring M.picks (asked_by B.admits B.allows asking.now)) line.old) line.old }
    ensures beyond { drop (48 * places_of asking.now.sheet.now) memory.new ≡ drop (48 * places_of asking.now.sheet.now) memory.old }
    ensures refused { (e : Refusal) → first_no (line_questions asking.now.sheet.now asking.now.compass.now (length memory.old) (length line.old)) ≡ Some e → memory.new ≡ memory.old }
    ensures few { first_no (line_questions asking.now.sheet.now asking.now.compass.now (length memory.old) (length line.old)) ≡ None → places_of asking.now.sheet.now ≤ 64 }
{
    let cells = asking.check_trial()?;
    if !engine::tracing::first(asking, cells, memory, line)? {
        return Err(Refusal::NoLineStands);
    }
    Ok(())
}

/// Writes the first standing line to the front of the line buffer.
pub fn decide<B: Book>(
    asking: &Asking<'_, B>,
    memory: &mut [Possible],
    line: &mut [u8],
) -> Result<(), Refusal>
    ensures answer { result ≡ answer tt (decide_no (asked_by B.admits B.allows asking.now) (length memory.old) (length line.old)) }
    ensures line { line.new ≡ unless (decide_no (asked_by B.admits B.allows asking.now) (length memory.old) (length line.old)) (written (first_standing (asked_by B.admits B.allows asking.now)) line.old) line.old }
    ensures law { Decided (asked_by B.admits B.allows asking.now) result (take (places_of asking.now.sheet.now) line.new) }
    ensures course { Kept unweighed (closed_at asking.now.sheet.now) (Decide (handed_by B.admits B.allows asking.now) (length memory.old) (length line.old)) (told_line result (take (places_of asking.now.sheet.now) line.new)) (closed_at asking.now.sheet.now) }
    ensures beyond { drop (48 * places_of asking.now.sheet.now) memory.new ≡ drop (48 * places_of asking.now.sheet.now) memory.old }
    ensures refused { (e : Refusal) → first_no (line_questions asking.now.sheet.now asking.now.compass.now (length memory.old) (length line.old)) ≡ Some e → memory.new ≡ memory.old }
{
    find_first::<B, Possible>(asking, memory, line)
}

/// Writes the first standing line whose sum of step sizes round the barrel is least.
pub fn least<B: Book>(
    asking: &Asking<'_, B>,
    memory: &mut [Movement],
    line: &mut [u8],
) -> Result<(), Refusal>
    ensures answer { result ≡ answer tt (least_no (asked_by B.admits B.allows asking.now) (length memory.old) (length line.old)) }
    ensures line { line.new ≡ unless (least_no (asked_by B.admits B.allows asking.now) (length memory.old) (length line.old)) (written (least_standing (asked_by B.admits B.allows asking.now)) line.old) line.old }
    ensures law { LeastFound (asked_by B.admits B.allows asking.now) result (take (places_of asking.now.sheet.now) line.new) }
    ensures course { Kept unweighed (closed_at asking.now.sheet.now) (Least (handed_by B.admits B.allows asking.now) (length memory.old) (length line.old)) (told_line result (take (places_of asking.now.sheet.now) line.new)) (closed_at asking.now.sheet.now) }
    ensures beyond { drop (48 * places_of asking.now.sheet.now) memory.new ≡ drop (48 * places_of asking.now.sheet.now) memory.old }
    ensures refused { (e : Refusal) → first_no (line_questions asking.now.sheet.now asking.now.compass.now (length memory.old) (length line.old)) ≡ Some e → memory.new ≡ memory.old }
{
    find_first::<B, Movement>(asking, memory, line)
}

/// Writes the standing line with a number, counted from 0 in order.
pub fn pick<B: Book>(
    asking: &Asking<'_, B>,
    memory: &mut [Number],
    line: &mut [u8],
    number: u32,
) -> Result<(), Refusal>
    ensures answer { result ≡ answer tt (pick_no (asked_by B.admits B.allows asking.now) (length memory.old) (length line.old) number) }
    ensures line { line.new ≡ unless (pick_no (asked_by B.admits B.allows asking.now) (length memory.old) (length line.old) number) (written (picked (asked_by B.admits B.allows asking.now) number) line.old) line.old }
    ensures law { Picked (asked_by B.admits B.allows asking.now) number result (take (places_of asking.now.sheet.now) line.new) }
    ensures course { Kept unweighed (closed_at asking.now.sheet.now) (Pick (handed_by B.admits B.allows asking.now) (length memory.old) (length line.old) number) (told_line result (take (places_of asking.now.sheet.now) line.new)) (closed_at asking.now.sheet.now) }
    ensures beyond { drop (48 * places_of asking.now.sheet.now) memory.new ≡ drop (48 * places_of asking.now.sheet.now) memory.old }
    ensures refused { (e : Refusal) → first_no (pick_questions asking.now.sheet.now asking.now.compass.now (length memory.old) (length line.old) number) ≡ Some e → memory.new ≡ memory.old }
{
    let places = asking.check_trial()?;
    if !engine::picking::pick(asking, places, memory, line, number)? {
        return Err(Refusal::NumberNotBelowCount);
    }
    Ok(())
}
