// Numbers as a measure: how many lines are there?
// Knows nothing of lines or cells.
ghost use Rattle.std.specs.Prelude.{◌≤◌};

use crate::algebra::Measure;

const CAP: u32 = 1_000_000_000;

/// How many, up to 1,000,000,000, which stands for that many or more.
#[derive(Clone, Copy, PartialEq, Eq, PartialOrd, Ord, Debug)]
pub struct Number {
    /// The number.
    pub value: u32,
    ghost capped: { value ≤ 1000000000 },
}

impl Measure for Number {
    ghost use Rattle.std.specs.Prelude.{refl};
    ghost use Rattle.measure.specs.Numbers.{number_ring};

    const NONE: Number = Number { value: 0 };

    const ONE: Number = Number { value: 1 };

    ghost NONE = { number_ring.none };

    ghost ONE = { number_ring.one };

    ghost ring = { number_ring };

    ghost none_of_ring = { refl };

    ghost one_of_ring = { refl };

    fn join(self, other: Number) -> Number {
        Number {
            value: (self.value + other.value).min(CAP),
        }
    }

    fn chain(self, next: Number) -> Number {
        Number {
            value: (self.value as u64 * next.value as u64).min(CAP as u64) as u32,
        }
    }

    fn step(_size: u8) -> Number {
        Self::ONE
    }
}
