// The working values that questions are lent. Knows nothing of calls.
// The line buffer goes beside them: tried as a fifth field, and the check no longer found that any of the fields
// keeps its length while a part of it is lent.
use measure::movement::Movement;
use measure::number::Number;
use measure::possible::Possible;

/// Working values for decide, for count and pick, for least, and for weigh.
#[derive(Drop)]
pub struct Memory<'a, M> {
    pub possible: &'a mut [Possible],
    pub numbers: &'a mut [Number],
    pub movements: &'a mut [Movement],
    pub weights: &'a mut [M],
}
