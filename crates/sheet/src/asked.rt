// What a change of a draft asks before it is made. Knows nothing of how it is made.
ghost use Rattle.std.specs.Prelude.{◌≡◌, ◌<◌, length, Some, None, MatchResult};
ghost use Rattle.std.specs.List.{position, remove};
ghost use Rattle.theme.specs.Refusals.{first_no, answer};
ghost use Rattle.rules.specs.Plain.{combination_of, combination_questions, add_questions, drop_questions, free_questions, same, without};

use super::draft::{Draft, MOST_COMBINATIONS};
use counterpoint::interval::is_shift_in_range;
use rules::combination::{Combination, ORIGINAL};
use rules::refusal::Refusal;
use rules::setting::Setting;

// The number of a combination in a list, if it is listed.
fn find(list: &[Combination], wanted: Combination) -> Option<usize>
    ensures { result ≡ position (λ x. same x wanted) list.now }
{
    list.iter().position(|combination| *combination == wanted)
}

impl Draft {
    // The combination that a setting names, where a theme is loaded and it is in range.
    fn combination(&self, setting: Setting) -> Result<Combination, Refusal>
        ensures { MatchResult result (λ c. (first_no (combination_questions self.now setting.jv setting.entry) ≡ None) × (c ≡ combination_of setting.jv setting.entry)) (λ e. first_no (combination_questions self.now setting.jv setting.entry) ≡ Some e) }
    {
        if self.theme.is_empty() {
            return Err(Refusal::NoTheme);
        }
        if !is_shift_in_range(setting.jv) {
            return Err(Refusal::ShiftOutOfRange);
        }
        let place = setting.entry.unsigned_abs() as usize;
        if setting.entry < 0 || place >= self.theme.len() {
            return Err(Refusal::EntryOutOfRange);
        }
        Ok(Combination {
            jv: setting.jv,
            entry: place,
        })
    }

    // The combination that a setting names, where it may be listed.
    pub(crate) fn to_be_added(&self, setting: Setting) -> Result<Combination, Refusal>
        ensures { MatchResult result (λ c. (first_no (add_questions self.now setting.jv setting.entry) ≡ None) × (c ≡ combination_of setting.jv setting.entry) × (length self.now.list < 8)) (λ e. first_no (add_questions self.now setting.jv setting.entry) ≡ Some e) }
    {
        let combination = self.combination(setting)?;
        if find(&self.list, combination).is_some() {
            return Err(Refusal::AlreadyListed);
        }
        if self.list.len() >= MOST_COMBINATIONS {
            return Err(Refusal::ListFull);
        }
        Ok(combination)
    }

    // The number in the list of the combination that a setting names, where it may be dropped.
    pub(crate) fn to_be_dropped(&self, setting: Setting) -> Result<usize, Refusal>
        ensures { MatchResult result (λ i. (first_no (drop_questions self.now setting.jv setting.entry) ≡ None) × (i < length self.now.list) × (remove self.now.list i ≡ without (combination_of setting.jv setting.entry) self.now.list)) (λ e. first_no (drop_questions self.now setting.jv setting.entry) ≡ Some e) }
    {
        let combination = self.combination(setting)?;
        match find(&self.list, combination) {
            Some(number) if combination != ORIGINAL => Ok(number),
            _ => Err(Refusal::NotListed),
        }
    }

    // Sees that a theme is loaded and has this place.
    pub(crate) fn check_place(&self, place: usize) -> Result<(), Refusal>
        ensures { result ≡ answer tt (first_no (free_questions self.now place)) }
    {
        if self.theme.is_empty() {
            return Err(Refusal::NoTheme);
        }
        if place >= self.theme.len() {
            return Err(Refusal::PlaceOutOfRange);
        }
        Ok(())
    }
}
