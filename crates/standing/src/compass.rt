// The compass of a question, and the trial in it: inquired after first, then entered.
// Knows nothing of sheets or lines.
ghost use Rattle.std.specs.Prelude.{◌≡◌, true, Some, None, MatchResult};
ghost use Rattle.theme.specs.Refusals.{first_no, answer};
ghost use Rattle.rules.specs.Plain.{unless};
ghost use Rattle.rules.specs.Compasses.{between, compass_questions, keys_fit, trial_questions, trial_fits, with_trial};

use rules::refusal::Refusal;
use rules::trial::Trial;
use std::marker::Model;
use theme::place::HIGHEST_KEY;
use theme::theme::MOST_PLACES;

/// The last place that can be tried.
const LAST_PLACE: usize = MOST_PLACES - 1;

/// The keys that a line may use, from the lowest to the highest, and at most one tried key.
#[derive(Clone, Copy, PartialEq, Eq, Hash, Debug)]
pub struct Compass {
    pub(crate) lowest: u8,
    pub(crate) highest: u8,
    pub(crate) trial: Option<Trial>,
}

// Contracts see the plain compass.
impl Model for Compass {
    ghost use Rattle.std.specs.Prelude.{◌≡◌, true};
    ghost use Rattle.rules.specs.Compasses.{PlainCompass, keys_fit, trial_fits};

    ghost Value = { PlainCompass };

    ghost view = { λ c. record { lowest = c.lowest; highest = c.highest; trial = c.trial } };

    ghost invariant = { λ c. (keys_fit c.lowest c.highest ≡ true) × (trial_fits c.lowest c.highest c.trial ≡ true) };

    ghost inverse = { λ p. record { lowest = p.lowest; highest = p.highest; trial = p.trial } };
}

impl Compass {
    /// A compass from its lowest to its highest key, with nothing tried.
    pub fn new(lowest: u8, highest: u8) -> Result<Compass, Refusal>
        ensures { MatchResult result (λ c. (first_no (compass_questions lowest highest) ≡ None) × (c ≡ record { lowest = lowest; highest = highest; trial = None })) (λ e. first_no (compass_questions lowest highest) ≡ Some e) }
    {
        if lowest > highest || highest > HIGHEST_KEY {
            return Err(Refusal::CompassUnfit);
        }
        Ok(Compass {
            lowest,
            highest,
            trial: None,
        })
    }

    /// The trial in force, if any.
    pub fn trial(&self) -> Option<Trial>
        ensures value { result ≡ self.now.trial }
        ensures within { trial_fits self.now.lowest self.now.highest result ≡ true }
    {
        self.trial
    }

    /// Whether a key lies in the compass.
    pub fn has(&self, key: u8) -> bool
        ensures value { result ≡ between self.now.lowest self.now.highest key }
        ensures fit { keys_fit self.now.lowest self.now.highest ≡ true }
    {
        (self.lowest..=self.highest).contains(&key)
    }

    /// Whether a trial may be begun.
    pub fn inquire(&self, trial: Trial) -> Result<(), Refusal>
        ensures { result ≡ answer tt (first_no (trial_questions self.now trial)) }
    {
        if trial.place > LAST_PLACE {
            return Err(Refusal::TrialPlaceOutOfRange);
        }
        if !self.has(trial.key) {
            return Err(Refusal::TrialKeyOutOfCompass);
        }
        Ok(())
    }

    /// Puts a trial in force and gives the former one; what the inquiry refuses leaves the former in force.
    pub fn enter(&mut self, trial: Trial) -> Option<Trial>
        ensures former { result ≡ self.old.trial }
        ensures held { self.new ≡ unless (first_no (trial_questions self.old trial)) (with_trial self.old (Some trial)) self.old }
        ensures fits { trial_fits self.new.lowest self.new.highest result ≡ true }
    {
        let former = self.trial;
        if self.inquire(trial).is_ok() {
            self.trial = Some(trial);
        }
        former
    }
}
