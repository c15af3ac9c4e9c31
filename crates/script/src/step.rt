// Calls that hold the bytes they are handed. Knows nothing of words.
ghost use Rattle.std.specs.Prelude.{◌≡◌};
ghost use Rattle.script.specs.Steps.{step_of, Makes};

use super::statement::Asks;
use course::call::{Call, Query, Question};

/// A call of a script, which owns its bytes. `Call` borrows them, so that it can be copied: one generic enum for both
/// would put an allocation or a lifetime where none belongs.
#[derive(Drop)]
pub enum Step {
    Load { page: Vec<u8> },
    Check { query: Query, line: Vec<u8> },
    Other(Call<'static>),
}

impl Step {
    /// What is asked, with what it is handed.
    pub fn asking(asks: Asks, query: Query, cells: usize) -> Step
        ensures { result ≡ step_of asks query cells }
    {
        let question = match asks {
            Asks::Decide => Question::Decide { cells },
            Asks::Count => Question::Count,
            Asks::Weigh => Question::Weigh,
            Asks::Least => Question::Least { cells },
            Asks::Pick { number } => Question::Pick { cells, number },
            Asks::Check { line } => return Step::Check { query, line },
        };
        Step::Other(Call::Ask { query, question })
    }

    /// The call, which borrows its bytes.
    pub fn call(&self) -> Call<'_>
        ensures { Makes self.now result }
    {
        match self {
            Step::Load { page } => Call::Load { page },
            Step::Check { query, line } => Call::Ask {
                query: *query,
                question: Question::Check { line },
            },
            Step::Other(call) => *call,
        }
    }
}
