// A trial: one key tried at one place. Knows nothing of compasses.

/// A key tried at a place.
#[derive(Clone, Copy, PartialEq, Eq, Hash, Debug)]
pub struct Trial {
    pub place: usize,
    pub key: u8,
}
