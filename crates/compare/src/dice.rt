// Numbers that look thrown and are always the same. Knows nothing of music.
ghost use Rattle.std.specs.Prelude.{◌<◌, ◌≤◌};

/// A linear congruential generator of 32 bits, of which the upper 16 are used.
#[derive(Drop)]
pub struct Dice {
    pub state: u32,
}

impl Dice {
    /// A number below a bound, or 0 below 0.
    pub(crate) fn below(&mut self, bound: u8) -> u8
        ensures within { result ≤ bound }
        ensures below { 0 < bound → result < bound }
    {
        self.state = self
            .state
            .wrapping_mul(1_664_525)
            .wrapping_add(1_013_904_223);
        let thrown = self.state >> 16;
        thrown.checked_rem(u32::from(bound)).unwrap_or(0) as u8
    }

    /// Whether the one chance among so many comes.
    pub(crate) fn chance(&mut self, among: u8) -> bool {
        self.below(among) == 0
    }

    /// A shift of at most 22, often one by whole octaves.
    pub(crate) fn shift(&mut self) -> i32 {
        if self.chance(2) {
            i32::from(self.below(7)) * 7 - 21
        } else {
            i32::from(self.below(45)) - 22
        }
    }
}
