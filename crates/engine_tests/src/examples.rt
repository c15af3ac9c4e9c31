// A roster of two places, computed among all 2,304 lines.
// Knows nothing of measures.
ghost use Rattle.engine_tests.specs.Examples.{FanListed};

/// States the lines of a passage that opens from one cell to three.
pub fn fan_is_listed()
    ensures { FanListed }
{}
