// What the calls answer at the ends of their ranges, where no second engine can follow.
use crate::case::Place;
use crate::sheets::page;
use books::free::Free;
use counterpoint::moments::{Accent, Voice};
use engine::verdicts::CELLS;
use measure::algebra::Measure;
use measure::number::Number;
use question::finding::pick;
use question::weighing::count;
use rules::refusal::Refusal;
use rules::setting::Setting;
use sheet::draft::{Closed, Draft};
use standing::asking::Asking;
use std::alloc::{AllocError, Global};
use theme::refusal::PageRefusal;
use theme::theme::MOST_PLACES;

/// How many working values the most places need.
const ROOM: usize = CELLS * MOST_PLACES;

/// One place more than a theme can have.
const BEYOND: usize = MOST_PLACES + 1;

/// A key repeated at each place.
const PLACE: Place = Place {
    key: 11,
    voice: Voice::Struck,
    accent: Accent::Strong,
    fixed: None,
};

/// A sheet with 64 places, and what was answered when pages were loaded into it.
#[derive(Drop)]
pub struct Large {
    pub sheet: Closed,
    /// To a page of 64 places.
    pub longest: Result<(), PageRefusal>,
    /// To a page of 65 places.
    pub longer: Result<(), PageRefusal>,
}

/// What is answered when a list is filled beyond its eight combinations.
pub(crate) fn fill_list(sheet: Closed) -> Result<(), Refusal> {
    let mut draft = sheet.reopen();
    for jv in 1..9 {
        draft.add(Setting { jv, entry: 0 })?;
    }
    Ok(())
}

/// A sheet with as many places as there can be.
pub(crate) fn fill_sheet(heap: Global) -> Result<Large, AllocError> {
    let mut draft = Draft::blank(heap)?;
    let longest = draft.load(page(heap, 1, &[PLACE; MOST_PLACES])?.as_bytes());
    let longer = draft.load(page(heap, 1, &[PLACE; BEYOND])?.as_bytes());
    let sheet = draft.close();
    Ok(Large {
        sheet,
        longest,
        longer,
    })
}

/// How many lines stand over the free book.
pub(crate) fn count_free(asking: &Asking<'_, Free>) -> Result<u32, Refusal> {
    let mut memory = [Number::NONE; ROOM];
    count(asking, &mut memory)
}

/// What is answered to a number too large.
pub(crate) fn pick_free(asking: &Asking<'_, Free>) -> Result<(), Refusal> {
    let mut memory = [Number::NONE; ROOM];
    let mut line = [0; MOST_PLACES];
    pick(asking, &mut memory, &mut line, 1_000_000_000)
}
