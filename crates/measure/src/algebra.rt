// The trait of measures and the trait of choosing measures over it.
// Knows nothing of any one measure.
ghost use Rattle.std.specs.Prelude.{◌≡◌, ℕ, ◌≤◌, Bool, true, List, length, if◌then◌else◌, ◌≢◌};
ghost use Rattle.measure.specs.Algebra.{Ring, walked};
ghost use Rattle.std.specs.List.{AllByRecursion};

/// Values that can be joined, as ways side by side, and chained, as steps one after the other.
pub trait Measure: Copy {
    /// Joins with any value and alters nothing.
    const NONE: Self;

    /// Chains with any value on either side and alters nothing.
    const ONE: Self;

    // the constants' values in proofs, which the two laws below tie to the ring's
    ghost NONE: { Self };

    ghost ONE: { Self };

    ghost ring: { Ring Self };

    /// Two values side by side.
    fn join(self, other: Self) -> Self
        ensures { result ≡ ring.join self other };

    /// This value, and the next after it.
    fn chain(self, next: Self) -> Self
        ensures { result ≡ ring.chain self next };

    /// The value of a step of some size; steps of a line have sizes up to 23.
    fn step(size: u8) -> Self
        ensures { result ≡ ring.step size };

    ghost none_of_ring: { NONE ≡ ring.none };

    ghost one_of_ring: { ONE ≡ ring.one };
}

/// A measure whose joining is always one of the two values, and which tells the one.
/// No chaining of up to 64 of its steps is none.
pub trait Choosing: Measure {
    ghost picks: { Self → Self → Bool };

    /// Whether the joining of the two is the first, as it is if it is both.
    fn chooses(self, other: Self) -> bool
        ensures { result ≡ picks self other };

    ghost either: { (x y : Self) → Self.ring.join x y ≡ (if picks x y then x else y) };

    ghost former: { (x y : Self) → Self.ring.join x y ≡ x → picks x y ≡ true };

    ghost lasting: { (sizes : List ℕ) → length sizes ≤ 64 → AllByRecursion (λ s. s ≤ 23) sizes → walked Self.ring sizes ≢ Self.ring.none };
}
