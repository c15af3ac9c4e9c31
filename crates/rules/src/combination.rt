// Combinations: the lawful ways to play line and theme together. Knows nothing of sheets.

/// The line raised by `jv` keys, and begun at the theme's place `entry`.
#[derive(Clone, Copy, PartialEq, Eq, Hash, Debug)]
pub struct Combination {
    pub jv: i32,
    pub entry: usize,
}

/// The original combination, in which line and theme stand as they are pinned.
pub const ORIGINAL: Combination = Combination { jv: 0, entry: 0 };
