// The trait of passages: which cell may follow which.
// Knows nothing of measures, and nothing of why a passage says yes or no.
ghost use Rattle.std.specs.Prelude.{◌≡◌};
ghost use Rattle.engine.specs.Lines.{Way};

/// Says at each place which cell may follow which, always the same. Place and cells are three numbers and no struct,
/// as a table of verdicts is read by one of them after the other.
pub trait Passage {
    ghost way: { Self → Way };

    /// Whether the cell `next` at the place after `place` may follow `cell` at `place`.
    fn may(&self, place: usize, cell: usize, next: usize) -> bool
        ensures { result ≡ way self.now place cell next };
}
