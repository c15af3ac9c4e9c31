// A trial in a compass, ended by a guard.
ghost use Rattle.std.specs.Prelude.{◌≡◌, true};
ghost use Rattle.rules.specs.Compasses.{trial_fits, with_trial};

use super::compass::Compass;
use rules::trial::Trial;

/// A trial in force: when it ends, by whichever way, the former one is back.
/// Made in place, of a compass and what `Compass::enter` gave, so that its end is known there at once: a function
/// that gave one back would need a clause that it holds the same reference.
pub struct Trying<'a> {
    pub compass: &'a mut Compass,
    pub former: Option<Trial>,
}

impl Drop for Trying<'_> {
    fn drop(self)
        requires { trial_fits self.compass.now.lowest self.compass.now.highest self.former ≡ true }
        ensures { self.exit.0.now ≡ with_trial self.entry.compass.now self.entry.former }
    {
        let Trying { compass, former } = self;
        compass.trial = former;
    }
}
