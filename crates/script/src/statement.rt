// What a line of a script can say, as data. Knows nothing of words.
pub use super::book::Rules;
use course::call::Call;
use rules::trial::Trial;

/// A book by its name, and the shift of the layer over it, if there is one.
#[derive(Clone, Copy, PartialEq, Eq, Hash, Debug)]
pub struct BookName {
    pub rules: Rules,
    pub shift: Option<i32>,
}

/// The lowest and the highest key of a compass.
#[derive(Clone, Copy, PartialEq, Eq, Hash, Debug)]
pub struct Keys {
    pub lowest: u8,
    pub highest: u8,
}

/// What a question says of its compass, its working values and its line buffer.
#[derive(Clone, Copy, PartialEq, Eq, Hash, Debug, Default)]
pub struct Options {
    pub keys: Option<Keys>,
    pub trial: Option<Trial>,
    pub room: Option<usize>,
    pub cells: Option<usize>,
}

/// What is asked.
#[derive(Drop)]
pub enum Asks {
    Decide,
    Count,
    Weigh,
    Least,
    Pick { number: u32 },
    Check { line: Vec<u8> },
}

/// A question, with all that it says.
#[derive(Drop)]
pub struct Question {
    pub asks: Asks,
    pub book: BookName,
    pub options: Options,
}

/// What a line says: a page to load by its file, a change, a question, or a combination to write.
#[derive(Drop)]
pub enum Statement {
    Load { file: String },
    Change(Call<'static>),
    Ask(Question),
    Write { number: usize },
}
