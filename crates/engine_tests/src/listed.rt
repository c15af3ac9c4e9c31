// Passages that are given by a list of what they let through.
// Knows nothing of measures.
ghost use Rattle.std.specs.Prelude.{◌&&◌, ◌||◌, ◌==◌};

use engine::passage::Passage;

/// Three places: from 0 to 2 or 4, from any to 0 or 6, and from any back to 0.
pub struct Three;

/// Lets everything through, or nothing.
pub struct Always(pub bool);

impl Passage for Always {
    ghost way = { λ always t c d. always.0 };

    fn may(&self, _place: usize, _cell: usize, _next: usize) -> bool {
        self.0
    }
}

impl Passage for Three {
    ghost way = { λ p t c d. (t == 0 && (c == 0 && (d == 2 || d == 4))) || ((t == 1 && (d == 0 || d == 6)) || (t == 2 && d == 0)) };

    fn may(&self, place: usize, cell: usize, next: usize) -> bool {
        matches!(
            (place, cell, next),
            (0, 0, 2 | 4) | (1, _, 0 | 6) | (2, _, 0)
        )
    }
}
