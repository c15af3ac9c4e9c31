// Movements as a measure: how little can a line move?
// Knows nothing of lines or cells.
ghost use Rattle.std.specs.Prelude.{◌≤◌};

use crate::algebra::{Choosing, Measure};

// By the rule of the measure a sum of 1,000,000 stands for no line, also where sums of steps come to it; so it is
// a number like the others, and no Option.
const CAP: u32 = 1_000_000;

/// A sum of step sizes below 1,000,000, which stands for no line at all.
#[derive(Clone, Copy, PartialEq, Eq, PartialOrd, Ord, Debug)]
pub struct Movement {
    /// The sum.
    pub sum: u32,
    ghost capped: { sum ≤ 1000000 },
}

impl Measure for Movement {
    ghost use Rattle.std.specs.Prelude.{refl};
    ghost use Rattle.measure.specs.Movements.{movement_ring};

    const NONE: Movement = Movement { sum: CAP };

    const ONE: Movement = Movement { sum: 0 };

    ghost NONE = { movement_ring.none };

    ghost ONE = { movement_ring.one };

    ghost ring = { movement_ring };

    ghost none_of_ring = { refl };

    ghost one_of_ring = { refl };

    fn join(self, other: Movement) -> Movement {
        Movement {
            sum: self.sum.min(other.sum),
        }
    }

    fn chain(self, next: Movement) -> Movement {
        Movement {
            sum: (self.sum + next.sum).min(CAP),
        }
    }

    fn step(size: u8) -> Movement {
        Movement {
            sum: u32::from(size),
        }
    }
}

impl Choosing for Movement {
    ghost use Rattle.std.specs.Prelude.{◌≡◌, min, nat_le};
    ghost use Rattle.std.proofs.Common.{ap, arith};
    ghost use Rattle.std.proofs.lemmas.Bool.{cond_both, leb-false, leb-true, le-leb};
    ghost use Rattle.measure.specs.Movements.{same_movement, smaller, smaller_of};
    ghost use Rattle.measure.specs.Steps.{never_capped};

    ghost picks = { smaller };

    ghost either = { λ x y.
        cond_both (nat_le x.sum y.sum) x y (λ v. smaller_of x y ≡ v)
        (λ e. same_movement _ _ (omega (arith, leb-true x.sum y.sum e)))
        (λ e. same_movement _ _ (omega (arith, leb-false x.sum y.sum e))) };

    ghost former = { λ x y e.
        let least : min x.sum y.sum ≡ x.sum = ap (λ m. m.sum) e in
        le-leb x.sum y.sum (omega arith) };

    ghost lasting = { λ sizes short small none. never_capped sizes short small none };

    fn chooses(self, other: Movement) -> bool {
        self <= other
    }
}
