// What a question is asked of, and which cell may follow which as far as it goes.
// Knows nothing of measures.
ghost use Rattle.std.specs.Prelude.{◌≡◌, ◌<◌, ◌≤◌, ◌&&◌, true, Some, None, MatchResult};
ghost use Rattle.theme.specs.Refusals.{first_no};
ghost use Rattle.engine.specs.Lines.{every};
ghost use Rattle.rules.specs.Meeting.{moment_of, succession_of};
ghost use Rattle.rules.specs.Plain.{places_of};
ghost use Rattle.rules.specs.Questions.{base_questions};
ghost use Rattle.rules.specs.Standing.{agrees, keeps, kept_at, tried_at, way};
ghost use Rattle.standing.specs.Asking.{asked_by};

use super::asked::check_trial;
use super::compass::Compass;
use super::meeting::Meeting;
use counterpoint::book::Book;
use engine::passage::Passage;
use engine::verdicts::CELLS;
use rules::refusal::Refusal;
use rules::trial::Trial;
use sheet::cells::{is_lawful, key_of};
use sheet::draft::Closed;

/// A closed sheet, a book and a compass: what every question is asked of.
#[derive(Drop)]
pub struct Asking<'a, B> {
    pub sheet: &'a Closed,
    pub book: &'a B,
    pub compass: &'a Compass,
}

// Whether a key is the one asked for, if one is.
fn keeps_key(wanted: Option<u8>, key: u8) -> bool
    ensures { result ≡ keeps wanted key }
{
    wanted.is_none_or(|wanted| wanted == key)
}

// The key tried at a place, if one is.
fn tried_key(trial: Option<Trial>, place: usize) -> Option<u8>
    ensures { result ≡ tried_at trial place }
{
    match trial {
        Some(trial) if trial.place == place => Some(trial.key),
        _ => None,
    }
}

impl Meeting<'_> {
    // Whether a book says yes to a moment and to the succession out of it.
    pub(crate) fn pleases<B: Book>(&self, book: &B, place: usize, cell: u8, next: u8) -> bool
        requires { place < places_of self.now.sheet.now }
        ensures { result ≡ (B.admits book.now (moment_of self.now.sheet.now self.now.combination place cell) && B.allows book.now (succession_of self.now.sheet.now self.now.combination place cell next)) }
    {
        book.admits(self.moment(place, cell)) && book.allows(self.succession(place, cell, next))
    }
}

impl<B: Book> Asking<'_, B> {
    /// Sees that a theme is loaded and a tried place is one of its places, and gives the number of places.
    pub fn check_trial(&self) -> Result<usize, Refusal>
        ensures { MatchResult result (λ n. (first_no (base_questions self.now.sheet.now self.now.compass.now) ≡ None) × (n ≡ places_of self.now.sheet.now) × (0 < n) × (n ≤ 64)) (λ e. first_no (base_questions self.now.sheet.now self.now.compass.now) ≡ Some e) }
    {
        check_trial(self.sheet, self.compass)
    }

    // Whether a cell keeps the compass, the trial and the key fixed at its place.
    pub(crate) fn keeps_all(&self, place: usize, cell: u8) -> bool
        requires { place < places_of self.now.sheet.now }
        ensures { result ≡ kept_at (asked_by B.admits B.allows self.now) place cell }
    {
        let key = key_of(cell);
        let fixed = self.sheet.fixings()[place];
        self.compass.has(key)
            && keeps_key(tried_key(self.compass.trial(), place), key)
            && keeps_key(fixed, key)
    }

    // Whether the book says yes in each listed combination.
    // A loop: in a closure for `all` the two facts of a meeting stay open, and a clause there would say them again.
    fn agrees_in_all(&self, place: usize, cell: u8, next: u8) -> bool
        requires { place < places_of self.now.sheet.now }
        ensures { result ≡ every (agrees (asked_by B.admits B.allows self.now) place cell next) self.now.sheet.now.list }
    {
        let combinations = self.sheet.combinations();
        for combination in combinations {
            let meeting = Meeting {
                sheet: self.sheet,
                combination: *combination,
            };
            if !meeting.pleases(self.book, place, cell, next) {
                return false;
            }
        }
        true
    }
}

impl<B: Book> Passage for Asking<'_, B> {
    ghost way = { λ asking. way (asked_by B.admits B.allows asking) };

    fn may(&self, place: usize, cell: usize, next: usize) -> bool {
        let places = self.sheet.theme().len();
        if place >= places || cell >= CELLS || next >= CELLS {
            return false;
        }
        let cell = cell as u8;
        let next = next as u8;
        let before = if place + 1 < places { Some(cell) } else { None };
        is_lawful(before, next)
            && self.keeps_all(place, cell)
            && self.agrees_in_all(place, cell, next)
    }
}
