// Draft sheets, which take load, add, drop, fix and free, and closed sheets, which take the questions.
// A sheet has all the room that it can ever need from its beginning.
ghost use Rattle.std.specs.Prelude.{◌≡◌, ◌≤◌, ◌==◌, true, length, IfOk};
ghost use Rattle.theme.specs.Refusals.{first_no, answer};
ghost use Rattle.theme.specs.Pages.{refusal_of};
ghost use Rattle.theme.specs.Themes.{blank_or_lawful};
ghost use Rattle.rules.specs.Plain.{blank, unless, loaded, add_questions, added, drop_questions, dropped, free_questions, freed, fix_questions, fixed, places_of, all_in_range};
ghost use Rattle.rules.specs.Courses.{Load, Add, Drop, Fix, Free, Close, Reopen, draft_at, closed_at};
ghost use Rattle.rules.specs.Faults.{Done, Kept, told_page, told_done, unweighed};

use rules::combination::{Combination, ORIGINAL};
use rules::refusal::Refusal;
use rules::setting::Setting;
use std::alloc::{AllocError, Global};
use std::marker::Model;
use theme::place::HIGHEST_KEY;
use theme::refusal::PageRefusal;
use theme::theme::{MOST_PLACES, Theme};

/// The most combinations that a sheet lists.
pub const MOST_COMBINATIONS: usize = 8;

/// A sheet that may be changed. It answers no question: close it first.
#[derive(Drop)]
pub struct Draft {
    pub(crate) theme: Theme,
    pub(crate) list: Vec<Combination>,
    // For each place of the theme the key fixed there, if any.
    pub(crate) fixings: Vec<Option<u8>>,
}

// Contracts see the plain sheet.
impl Model for Draft {
    ghost use Rattle.rules.specs.Plain.{Plain};

    ghost Value = { Plain };

    ghost use Rattle.sheet.specs.Held.{plain_of, Sound};

    ghost view = { plain_of };

    ghost invariant = { Sound };
}

/// A sheet that answers questions. It takes no change: reopen it first.
#[derive(Drop)]
pub struct Closed {
    draft: Draft,
}

impl Model for Closed {
    ghost use Rattle.rules.specs.Plain.{Plain};

    ghost Value = { Plain };

    ghost view = { λ c. c.draft };
}

impl Draft {
    /// A sheet with no theme, list or fixing; only this call can fail for want of memory.
    pub fn blank(heap: Global) -> Result<Draft, AllocError>
        ensures { IfOk result (λ d. d ≡ blank) }
    {
        let theme = Theme::blank(heap)?;
        let list = Vec::with_capacity(heap, MOST_COMBINATIONS)?;
        let fixings = Vec::with_capacity(heap, MOST_PLACES)?;
        Ok(Draft {
            theme,
            list,
            fixings,
        })
    }

    /// Whether no theme is loaded.
    pub fn is_blank(&self) -> bool
        ensures value { result ≡ (places_of self.now == 0) }
        ensures few { length self.now.list ≤ 8 }
        ensures level { length self.now.fixings ≡ places_of self.now }
        ensures in_range { all_in_range (places_of self.now) self.now.list ≡ true }
        ensures lawful { blank_or_lawful self.now.theme.places self.now.theme.bar ≡ true }
    {
        self.theme.is_empty()
    }

    /// Takes the theme of a page, lists the original combination alone and frees every place.
    pub fn load(&mut self, page: &[u8]) -> Result<(), PageRefusal>
        ensures answer { result ≡ answer tt (refusal_of page.now) }
        ensures held { self.new ≡ unless (refusal_of page.now) (loaded page.now) self.old }
        ensures course { Kept unweighed (draft_at self.old) (Load page.now) (told_page result) (draft_at self.new) }
    {
        self.theme.read(page)?;
        self.list.clear();
        self.list.push_reserved(ORIGINAL);
        self.fixings.clear();
        self.fixings.resize(self.theme.len(), None).unwrap();
        Ok(())
    }

    /// Lists one combination more.
    pub fn add(&mut self, setting: Setting) -> Result<(), Refusal>
        ensures answer { result ≡ answer tt (first_no (add_questions self.old setting.jv setting.entry)) }
        ensures held { self.new ≡ unless (first_no (add_questions self.old setting.jv setting.entry)) (added self.old setting.jv setting.entry) self.old }
        ensures course { Kept unweighed (draft_at self.old) (Add setting.jv setting.entry) (told_done result) (draft_at self.new) }
    {
        let combination = self.to_be_added(setting)?;
        self.list.push_reserved(combination);
        Ok(())
    }

    /// Takes a combination off the list; the original stays.
    pub fn drop(&mut self, setting: Setting) -> Result<(), Refusal>
        ensures answer { result ≡ answer tt (first_no (drop_questions self.old setting.jv setting.entry)) }
        ensures held { self.new ≡ unless (first_no (drop_questions self.old setting.jv setting.entry)) (dropped self.old setting.jv setting.entry) self.old }
        ensures course { Kept unweighed (draft_at self.old) (Drop setting.jv setting.entry) (told_done result) (draft_at self.new) }
    {
        let number = self.to_be_dropped(setting)?;
        self.list.remove(number);
        Ok(())
    }

    /// Fixes a key at a place, in the place of the one fixed there if any.
    pub fn fix(&mut self, place: usize, key: u8) -> Result<(), Refusal>
        ensures answer { result ≡ answer tt (first_no (fix_questions self.old place key)) }
        ensures held { self.new ≡ unless (first_no (fix_questions self.old place key)) (fixed self.old place key) self.old }
        ensures course { Kept unweighed (draft_at self.old) (Fix place key) (told_done result) (draft_at self.new) }
    {
        self.check_place(place)?;
        if key > HIGHEST_KEY {
            return Err(Refusal::KeyOutOfRange);
        }
        self.fixings[place] = Some(key);
        Ok(())
    }

    /// Frees a place, which may be free already.
    pub fn free(&mut self, place: usize) -> Result<(), Refusal>
        ensures answer { result ≡ answer tt (first_no (free_questions self.old place)) }
        ensures held { self.new ≡ unless (first_no (free_questions self.old place)) (freed self.old place) self.old }
        ensures course { Kept unweighed (draft_at self.old) (Free place) (told_done result) (draft_at self.new) }
    {
        self.check_place(place)?;
        self.fixings[place] = None;
        Ok(())
    }

    /// Turns the draft into a closed sheet.
    pub fn close(self) -> Closed
        ensures held { result ≡ self }
        ensures course { Kept unweighed (draft_at self) Close Done (closed_at result) }
    {
        Closed { draft: self }
    }
}

impl Closed {
    /// Turns the sheet into a draft again.
    pub fn reopen(self) -> Draft
        ensures held { result ≡ self }
        ensures course { Kept unweighed (closed_at self) Reopen Done (draft_at result) }
    {
        self.draft
    }

    /// The theme, blank where none is loaded.
    pub fn theme(&self) -> &Theme
        ensures { result.now ≡ self.now.theme }
    {
        &self.draft.theme
    }

    /// The combinations listed, in the order of adding.
    pub fn combinations(&self) -> &[Combination]
        ensures value { result.now ≡ self.now.list }
        ensures in_range { all_in_range (places_of self.now) result.now ≡ true }
        ensures few { length result.now ≤ 8 }
    {
        &self.draft.list
    }

    /// For each place the key fixed there, if any.
    pub fn fixings(&self) -> &[Option<u8>]
        ensures value { result.now ≡ self.now.fixings }
        ensures len { length result.now ≡ places_of self.now }
    {
        &self.draft.fixings
    }
}
