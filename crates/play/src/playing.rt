// Playing a script as one course. Knows nothing of its text.
use course::choices::Choices;
use course::memory::Memory;
use course::running::{Played, run};
use measure::algebra::Measure;
use measure::movement::Movement;
use measure::number::Number;
use measure::possible::Possible;
use script::gathering::Script;
use script::handing::{MOST_CELLS, MOST_ROOM};
use std::alloc::{AllocError, Global};

/// Makes the calls of a script in one course; its measure is the least sum of steps.
pub(crate) fn play(heap: Global, script: &Script) -> Result<Played<Movement>, AllocError> {
    let calls = script.calls(heap)?;
    let mut possible = vec![in heap; Possible::NONE; MOST_ROOM]?;
    let mut numbers = vec![in heap; Number::NONE; MOST_ROOM]?;
    let mut movements = vec![in heap; Movement::NONE; MOST_ROOM]?;
    let mut weights = vec![in heap; Movement::NONE; MOST_ROOM]?;
    let mut line = [0; MOST_CELLS];
    let mut memory = Memory {
        possible: &mut possible,
        numbers: &mut numbers,
        movements: &mut movements,
        weights: &mut weights,
    };
    let choices = Choices {
        books: &script.books,
        compasses: &script.compasses,
    };
    run(heap, &choices, &calls, &mut memory, &mut line)
}
