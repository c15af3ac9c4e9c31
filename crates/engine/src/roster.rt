// The lines of some number of places that go round by a table of verdicts.
// Knows nothing of measures.
ghost use Rattle.std.specs.Prelude.{◌≡◌, ◌<◌, ◌≤◌};

use crate::verdicts::Verdicts;

/// The lines of 1 to 64 places that go round, by the verdicts of some passage.
// The table is lent, as it is of 24 KiB: where it is moved, it is copied.
#[derive(Drop)]
pub(crate) struct Roster<'a> {
    pub(crate) verdicts: &'a Verdicts,
    pub(crate) places: usize,
    ghost some: { 0 < places },
    ghost most: { places ≤ 64 },
}

impl<'a> Roster<'a> {
    ghost use Rattle.std.specs.Prelude.{ℕ, ◌&&◌, nat_lt};
    ghost use Rattle.engine.specs.Lines.{Way, roster};
    ghost use Rattle.engine.specs.Ways.{way_of};
    ghost use Rattle.engine.specs.Words.{inside, said};

    /// The lines that a passage lets go round, whichever it is that the verdicts are of.
    pub(crate) fn of(verdicts: &'a Verdicts, places: usize) -> Roster<'a>
        requires { (0 < places) × (places ≤ 64) }
        ensures places { result.places ≡ places }
        ensures lines { (way : Way) → ((t c d : ℕ) → said verdicts.now.words t c d ≡ ((nat_lt t places && inside t c d) && way t c d)) → roster (way_of result) places ≡ roster way places }
    {
        Roster { verdicts, places }
    }
}
