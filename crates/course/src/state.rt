// A sheet in either state. Knows nothing of calls as data.
use super::answer::Answer;
use sheet::draft::{Closed, Draft};

/// A sheet, open to changes or to questions.
#[derive(Drop)]
pub enum State {
    Open(Draft),
    Shut(Closed),
}

/// What one call comes to: the sheet afterwards, and the answer.
#[derive(Drop)]
pub struct Step<M> {
    pub state: State,
    pub answer: Answer<M>,
}
