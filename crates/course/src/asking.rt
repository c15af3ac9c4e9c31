// The questions that a closed sheet takes, each told as an answer. Buffers go beside what is asked: a struct of both
// would borrow the one to be read and the other to be written, and each call lends parts of the second.
ghost use Rattle.std.specs.Prelude.{◌≡◌, min, length, take, IfOk};
ghost use Rattle.rules.specs.Courses.{closed_at};
ghost use Rattle.rules.specs.Faults.{Kept};
ghost use Rattle.rules.specs.Plain.{places_of};
ghost use Rattle.standing.specs.Asking.{handed_by};
ghost use Rattle.course.specs.Holding.{told, sizes_of};
ghost use Rattle.course.specs.Naming.{as_question};

use super::answer::{Answer, of_line, of_weight};
use super::call::Question;
use super::memory::Memory;
use counterpoint::book::Book;
use measure::algebra::Measure;
use question::finding::{decide, least, pick};
use question::weighing::{count, weigh};
use sheet::draft::Closed;
use standing::asking::Asking;
use standing::checking::check;
use std::alloc::{AllocError, Global};

// The first so many of a buffer, as far as there are so many.
pub(crate) fn cut<T>(all: &mut [T], most: usize) -> &mut [T]
    ensures { length result.now ≡ min most (length all.old) }
{
    let most = most.min(all.len());
    &mut all[..most]
}

// The cells of a line at the front of a buffer.
fn front<'a>(line: &'a [u8], sheet: &Closed) -> &'a [u8]
    ensures { result.now ≡ take (places_of sheet.now) line.now }
{
    let places = sheet.theme().len().min(line.len());
    &line[..places]
}

// Asks one question, lent what it says as far as there is so much.
pub(crate) fn ask<B: Book, M: Measure>(
    heap: Global,
    asking: &Asking<'_, B>,
    room: usize,
    question: Question<'_>,
    memory: &mut Memory<'_, M>,
    line: &mut [u8],
) -> Result<Answer<M>, AllocError>
    ensures kept { IfOk result (λ a. Kept M.ring (closed_at asking.now.sheet.now) (as_question (sizes_of memory.old line.old) room question.entry (handed_by B.admits B.allows asking.now)) (told a) (closed_at asking.now.sheet.now)) }
    ensures sizes { sizes_of memory.new line.new ≡ sizes_of memory.old line.old }
{
    match question {
        Question::Decide { cells } => {
            let line = cut(line, cells);
            let found = decide(asking, cut(memory.possible, room), line);
            of_line(heap, found, front(line, asking.sheet))
        }
        Question::Count => Ok(count(asking, cut(memory.numbers, room)).into()),
        Question::Weigh => Ok(of_weight(weigh(asking, cut(memory.weights, room)))),
        Question::Pick { cells, number } => {
            let line = cut(line, cells);
            let found = pick(asking, cut(memory.numbers, room), line, number);
            of_line(heap, found, front(line, asking.sheet))
        }
        Question::Least { cells } => {
            let line = cut(line, cells);
            let found = least(asking, cut(memory.movements, room), line);
            of_line(heap, found, front(line, asking.sheet))
        }
        Question::Check { line } => Ok(check(asking, line).into()),
    }
}
