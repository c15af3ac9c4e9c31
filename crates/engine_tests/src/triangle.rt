// A measure of the tests' own, whose chaining does not commute.
// Knows nothing of the engine.
ghost use Rattle.std.specs.Prelude.{refl};
ghost use Rattle.engine_tests.specs.Triangles.{triangle_ring};

use measure::algebra::Measure;

/// A two-by-two matrix of bits with nothing below the diagonal.
#[derive(Clone, Copy, PartialEq, Eq, Debug)]
pub struct Triangle {
    /// The upper left bit.
    pub near: bool,
    /// The upper right bit.
    pub cross: bool,
    /// The lower right bit.
    pub far: bool,
}

impl Measure for Triangle {
    const NONE: Triangle = Triangle {
        near: false,
        cross: false,
        far: false,
    };

    const ONE: Triangle = Triangle {
        near: true,
        cross: false,
        far: true,
    };

    ghost NONE = { triangle_ring.none };

    ghost ONE = { triangle_ring.one };

    ghost ring = { triangle_ring };

    ghost none_of_ring = { refl };

    ghost one_of_ring = { refl };

    fn join(self, other: Triangle) -> Triangle {
        Triangle {
            near: self.near | other.near,
            cross: self.cross | other.cross,
            far: self.far | other.far,
        }
    }

    fn chain(self, next: Triangle) -> Triangle {
        Triangle {
            near: self.near & next.near,
            cross: self.near & next.cross | self.cross & next.far,
            far: self.far & next.far,
        }
    }

    fn step(size: u8) -> Triangle {
        Triangle {
            near: true,
            cross: size == 1,
            far: size == 0,
        }
    }
}
