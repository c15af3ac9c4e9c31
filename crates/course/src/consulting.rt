// The calls that a closed sheet takes.
ghost use Rattle.std.specs.Prelude.{◌≡◌, IfOk};
ghost use Rattle.rules.specs.Courses.{closed_at};
ghost use Rattle.rules.specs.Faults.{Kept};
ghost use Rattle.course.specs.Holding.{reached_by, told, sizes_of};
ghost use Rattle.course.specs.Naming.{as_call, as_question, asks, handing};

use super::answer::Answer;
use super::asking::ask;
use super::call::{Call, Query, Question};
use super::choices::Choices;
use super::memory::Memory;
use super::state::{State, Step};
use counterpoint::book::Book;
use measure::algebra::Measure;
use sheet::draft::Closed;
use standing::asking::Asking;
use std::alloc::{AllocError, Global};

// Asks a question with the book and the compass that it names, if there are both.
fn consult<B: Book, M: Measure>(
    heap: Global,
    sheet: &Closed,
    choices: &Choices<'_, B>,
    query: Query,
    question: Question<'_>,
    memory: &mut Memory<'_, M>,
    line: &mut [u8],
) -> Result<Answer<M>, AllocError>
    ensures kept { IfOk result (λ a. Kept M.ring (closed_at sheet.now) (asks (handing B.admits B.allows choices.now.books.now choices.now.compasses.now query) (as_question (sizes_of memory.old line.old) query.room question.entry)) (told a) (closed_at sheet.now)) }
    ensures sizes { sizes_of memory.new line.new ≡ sizes_of memory.old line.old }
{
    let Some(book) = choices.books.get(query.book) else {
        return Ok(Answer::Away);
    };
    let Some(compass) = choices.compasses.get(query.compass) else {
        return Ok(Answer::Away);
    };
    let asking = Asking {
        sheet,
        book,
        compass,
    };
    ask(heap, &asking, query.room, question, memory, line)
}

// Plays one call on a closed sheet.
pub(crate) fn question<B: Book, M: Measure>(
    heap: Global,
    sheet: Closed,
    choices: &Choices<'_, B>,
    call: Call<'_>,
    memory: &mut Memory<'_, M>,
    line: &mut [u8],
) -> Result<Step<M>, AllocError>
    ensures kept { IfOk result (λ step. Kept M.ring (closed_at sheet) (as_call (handing B.admits B.allows choices.now.books.now choices.now.compasses.now) (sizes_of memory.old line.old) call.entry) (told step.answer) (reached_by step.state)) }
    ensures sizes { sizes_of memory.new line.new ≡ sizes_of memory.old line.old }
{
    let answer = match call {
        Call::Reopen => {
            return Ok(Step {
                state: State::Open(sheet.reopen()),
                answer: Answer::Done,
            });
        }
        Call::Ask { query, question } => {
            consult(heap, &sheet, choices, query, question, memory, line)?
        }
        Call::Load { .. }
        | Call::Add { .. }
        | Call::Drop { .. }
        | Call::Fix { .. }
        | Call::Free { .. }
        | Call::Close => Answer::Away,
    };
    Ok(Step {
        state: State::Shut(sheet),
        answer,
    })
}
