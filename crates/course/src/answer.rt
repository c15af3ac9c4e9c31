// Answers as data. Knows nothing of how calls come by them.
ghost use Rattle.std.specs.Prelude.{◌≡◌, IfOk};
ghost use Rattle.rules.specs.Faults.{told_page, told_done, told_line, told_number, told_weight};
ghost use Rattle.course.specs.Holding.{told};

use rules::refusal::Refusal;
use std::alloc::{AllocError, Global};
use theme::refusal::PageRefusal;

/// What a call answers, with a measure's values for weights.
// No Result: a refused call is one outcome among others and ends no course, so `?` is left to what does, the memory.
#[derive(Drop)]
pub enum Answer<M> {
    /// The sheet is not in the state for this call, or there is no such book or compass.
    Away,
    PageRefused(PageRefusal),
    Refused(Refusal),
    Done,
    Line(Vec<u8>),
    Number(u32),
    Weight(M),
}

/// What loading a page tells.
impl<M> From<Result<(), PageRefusal>> for Answer<M> {
    ghost from_gives = { λ outcome answer. told answer ≡ told_page outcome };

    fn from(outcome: Result<(), PageRefusal>) -> Answer<M> {
        match outcome {
            Ok(()) => Answer::Done,
            Err(refusal) => Answer::PageRefused(refusal),
        }
    }
}

/// What a call tells that has nothing to give.
impl<M> From<Result<(), Refusal>> for Answer<M> {
    ghost from_gives = { λ outcome answer. told answer ≡ told_done outcome };

    fn from(outcome: Result<(), Refusal>) -> Answer<M> {
        match outcome {
            Ok(()) => Answer::Done,
            Err(refusal) => Answer::Refused(refusal),
        }
    }
}

/// What a question tells that gives a number of lines.
impl<M> From<Result<u32, Refusal>> for Answer<M> {
    ghost from_gives = { λ outcome answer. told answer ≡ told_number outcome };

    fn from(outcome: Result<u32, Refusal>) -> Answer<M> {
        match outcome {
            Ok(number) => Answer::Number(number),
            Err(refusal) => Answer::Refused(refusal),
        }
    }
}

// What a question tells that gives a weight. A measure's values can be numbers, so `From` would be ambiguous.
pub(crate) fn of_weight<M>(outcome: Result<M, Refusal>) -> Answer<M>
    ensures { told result ≡ told_weight outcome }
{
    match outcome {
        Ok(weight) => Answer::Weight(weight),
        Err(refusal) => Answer::Refused(refusal),
    }
}

// What a question tells that gives a line.
pub(crate) fn of_line<M>(
    heap: Global,
    outcome: Result<(), Refusal>,
    line: &[u8],
) -> Result<Answer<M>, AllocError>
    ensures { IfOk result (λ a. told a ≡ told_line outcome line.now) }
{
    if let Err(refusal) = outcome {
        return Ok(Answer::Refused(refusal));
    }
    Ok(Answer::Line(line.to_vec(heap)?))
}
