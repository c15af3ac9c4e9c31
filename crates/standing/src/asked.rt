// What every question asks first. Knows nothing of books.
ghost use Rattle.std.specs.Prelude.{◌≡◌, ◌<◌, ◌≤◌, Some, None, MatchResult};
ghost use Rattle.theme.specs.Refusals.{first_no};
ghost use Rattle.rules.specs.Plain.{places_of};
ghost use Rattle.rules.specs.Questions.{base_questions, tried_below};

use super::compass::Compass;
use rules::refusal::Refusal;
use rules::trial::Trial;
use sheet::draft::Closed;

// Whether a tried place is one of so many.
fn is_tried_below(trial: Option<Trial>, places: usize) -> bool
    ensures { result ≡ tried_below trial places }
{
    trial.is_none_or(|trial| trial.place < places)
}

/// Sees that a theme is loaded and a tried place is one of its places, and gives the number of places.
pub fn check_trial(sheet: &Closed, compass: &Compass) -> Result<usize, Refusal>
    ensures { MatchResult result (λ n. (first_no (base_questions sheet.now compass.now) ≡ None) × (n ≡ places_of sheet.now) × (0 < n) × (n ≤ 64)) (λ e. first_no (base_questions sheet.now compass.now) ≡ Some e) }
{
    let theme = sheet.theme();
    if theme.is_empty() {
        return Err(Refusal::NoTheme);
    }
    let places = theme.len();
    if !is_tried_below(compass.trial(), places) {
        return Err(Refusal::TrialBeyondTheme);
    }
    Ok(places)
}
