// Yes-or-no as a measure: is there a line at all?
// Knows nothing of lines or cells.
ghost use Rattle.std.specs.Prelude.{refl};
ghost use Rattle.measure.specs.Possibles.{possible_ring, possibly};
ghost use Rattle.measure.specs.Steps.{all_possible};
ghost use Rattle.std.proofs.Common.{rules};

use crate::algebra::{Choosing, Measure};

/// Yes or no.
#[derive(Clone, Copy, PartialEq, Eq, PartialOrd, Ord, Debug)]
pub struct Possible {
    /// Whether it is yes.
    pub found: bool,
}

impl Measure for Possible {
    const NONE: Possible = Possible { found: false };

    const ONE: Possible = Possible { found: true };

    ghost NONE = { possible_ring.none };

    ghost ONE = { possible_ring.one };

    ghost ring = { possible_ring };

    ghost none_of_ring = { refl };

    ghost one_of_ring = { refl };

    fn join(self, other: Possible) -> Possible {
        Possible {
            found: self.found | other.found,
        }
    }

    fn chain(self, next: Possible) -> Possible {
        Possible {
            found: self.found & next.found,
        }
    }

    fn step(_size: u8) -> Possible {
        Self::ONE
    }
}

impl Choosing for Possible {
    ghost picks = { possibly };

    ghost either = { Prim.search rules };

    ghost former = { Prim.search rules };

    ghost lasting = { λ sizes short small none. all_possible sizes none };

    fn chooses(self, other: Possible) -> bool {
        self >= other
    }
}
