// What questions name by number. Knows nothing of calls.
use standing::compass::Compass;

/// The books and the compasses that questions name by their numbers.
#[derive(Drop)]
pub struct Choices<'a, B> {
    pub books: &'a [B],
    pub compasses: &'a [Compass],
}
