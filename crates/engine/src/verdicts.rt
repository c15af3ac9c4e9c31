// A table of verdicts: a passage asked once and written down, a word for each place and cell.
// Knows nothing of measures.
ghost use Rattle.std.specs.Prelude.{◌≡◌, ℕ, ◌+◌, ◌*◌, ◌<◌, ◌&&◌, nat_lt, slice_index};
ghost use Rattle.engine.specs.Words.{bit, inside, said};

use crate::passage::Passage;

/// How many cells there are: two for each of 24 keys.
pub const CELLS: usize = 48;

/// The most places a line can have.
pub const PLACES: usize = 64;

/// The verdicts of some passage: bit `d` of a place's word for a cell says whether the cell `d` may follow.
// Bits and no array of bools: a place's verdicts on 48 cells stand in one word, which is read at once for each
// cell that is filled and which, if empty, skips all of them; and the table, which is moved, is of 24 KiB and not 144.
// Public, as what it says is one of the engine's promises.
#[derive(Clone, Copy)]
pub struct Verdicts {
    words: [[u64; CELLS]; PLACES],
}

/// What a passage says of all cells that may follow one cell.
fn word_of<P: Passage>(passage: &P, place: usize, cell: usize) -> u64
    ensures { (d : ℕ) → d < 48 → bit result d ≡ P.way passage.now place cell d }
{
    let mut word = 0;
    for next in (0..CELLS).rev() {
        word = 2 * word + u64::from(passage.may(place, cell, next));
    }
    word
}

/// Whether a word says yes to a cell.
pub(crate) fn says(word: u64, next: usize) -> bool
    requires { next < 48 }
    ensures { result ≡ bit word next }
{
    (word >> next) & 1 == 1
}

impl Verdicts {
    /// The verdicts of a passage at its first `places` places, and no everywhere else.
    pub fn of<P: Passage>(passage: &P, places: usize) -> Verdicts
        ensures { (t c d : ℕ) → said result.words t c d ≡ ((nat_lt t places && inside t c d) && P.way passage.now t c d) }
    {
        // in place and by index: what `array::from_fn` makes is copied, row by row and as a whole
        let mut words = [[0; CELLS]; PLACES];
        for place in 0..places.min(PLACES) {
            for cell in 0..CELLS {
                words[place][cell] = word_of(passage, place, cell);
            }
        }
        Verdicts { words }
    }

    /// The word of a place and a cell.
    pub(crate) fn word(&self, place: usize, cell: usize) -> u64
        requires { (place < 64) × (cell < 48) }
        ensures { (d : ℕ) → d < 48 → said self.now.words place cell d ≡ bit result d }
    {
        self.words[place][cell]
    }
}

impl Passage for Verdicts {
    ghost way = { λ v. said v.words };

    fn may(&self, place: usize, cell: usize, next: usize) -> bool {
        place < PLACES && cell < CELLS && next < CELLS && says(self.words[place][cell], next)
    }
}
