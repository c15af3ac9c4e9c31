// Plays a course of calls on one sheet from blank.
ghost use Rattle.std.specs.Prelude.{◌≡◌, map, IfOk};
ghost use Rattle.rules.specs.Courses.{Blank, then_all, reached};
ghost use Rattle.rules.specs.Faults.{Faultless, Kept};
ghost use Rattle.course.specs.Holding.{reached_by, told, sizes_of};
ghost use Rattle.course.specs.Naming.{as_call, handing};

use super::answer::Answer;
use super::call::Call;
use super::changing::change;
use super::choices::Choices;
use super::consulting::question;
use super::memory::Memory;
use super::state::{State, Step};
use counterpoint::book::Book;
use measure::algebra::Measure;
use sheet::draft::Draft;
use std::alloc::{AllocError, Global};

/// What a course comes to: the sheet, and an answer to each call.
#[derive(Drop)]
pub struct Played<M> {
    pub state: State,
    pub answers: Vec<Answer<M>>,
}

// Plays one call.
fn play<B: Book, M: Measure>(
    heap: Global,
    state: State,
    choices: &Choices<'_, B>,
    call: Call<'_>,
    memory: &mut Memory<'_, M>,
    line: &mut [u8],
) -> Result<Step<M>, AllocError>
    ensures kept { IfOk result (λ step. Kept M.ring (reached_by state) (as_call (handing B.admits B.allows choices.now.books.now choices.now.compasses.now) (sizes_of memory.old line.old) call.entry) (told step.answer) (reached_by step.state)) }
    ensures sizes { sizes_of memory.new line.new ≡ sizes_of memory.old line.old }
{
    match state {
        State::Open(draft) => Ok(change(draft, call)),
        State::Shut(sheet) => question(heap, sheet, choices, call, memory, line),
    }
}

/// Plays calls in their order on one sheet that is blank at first. No answer has a fault, and the sheet
/// afterwards is what the calls make of a blank one. Only the sheet and the answers need memory.
pub fn run<B: Book, M: Measure>(
    heap: Global,
    choices: &Choices<'_, B>,
    calls: &[Call<'_>],
    memory: &mut Memory<'_, M>,
    line: &mut [u8],
) -> Result<Played<M>, AllocError>
    ensures faultless { IfOk result (λ played. Faultless M.ring Blank (map (as_call (handing B.admits B.allows choices.now.books.now choices.now.compasses.now) (sizes_of memory.old line.old)) calls.now) (map told played.answers.items)) }
    ensures sheet { IfOk result (λ played. reached_by played.state ≡ reached (then_all Blank (map (as_call (handing B.admits B.allows choices.now.books.now choices.now.compasses.now) (sizes_of memory.old line.old)) calls.now))) }
    ensures sizes { sizes_of memory.new line.new ≡ sizes_of memory.old line.old }
{
    let mut state = State::Open(Draft::blank(heap)?);
    let mut answers = Vec::new(heap);
    for call in calls {
        let step = play(heap, state, choices, *call, memory, line)?;
        state = step.state;
        answers.push(step.answer)?;
    }
    Ok(Played { state, answers })
}
