// Reading a theme from its page. The whole page is read before the theme is changed.
ghost use Rattle.std.specs.Prelude.{◌≡◌, ◌*◌, ◌/◌, ◌≤◌, length, take, is_ok, if◌then◌else◌, Some, None, vec_capacity, MatchResult};
ghost use Rattle.theme.specs.Refusals.{first_no, answer};
ghost use Rattle.theme.specs.Pages.{head_questions, rows_refusal, places_in, refusal_of, theme_in, AcceptsExactly};
ghost use Rattle.theme.specs.Held.{Headed};

use super::field::read_field;
use super::place::{Mark, Place};
use super::refusal::{PageRefusal, Reason};
use super::row::{ROW, read_row};
use super::theme::{MOST_PLACES, Theme};
use super::writing::HEAD;

// What the head of a page says.
#[derive(Clone, Copy)]
struct Head {
    count: usize,
    bar: usize,
}

// Reads the head of a page, holds the page's length to it, and gives it with the rows.
fn read_head(page: &[u8]) -> Result<(Head, &[u8]), PageRefusal>
    ensures { MatchResult result (λ x. (first_no (head_questions page.now) ≡ None) × Headed x.0 x.1.now page.now) (λ e. first_no (head_questions page.now) ≡ Some e) }
{
    if page.get(8) != Some(&b'\n') {
        return Err(Reason::HeadUnended.at(1, 1));
    }
    let Ok((count, rest)) = read_field(page) else {
        return Err(Reason::HeadNotANumber.at(1, 1));
    };
    let Ok((bar, _)) = read_field(rest) else {
        return Err(Reason::HeadNotANumber.at(1, 5));
    };
    let count = count as usize;
    let bar = bar as usize;
    // No range's `contains` here and below: tried, and the proofs' search stops at its limits.
    if count < 1 || count > MOST_PLACES {
        return Err(Reason::PlacesOutOfRange.at(1, 1));
    }
    if bar < 1 || bar > count || count % bar != 0 {
        return Err(Reason::BarUnfit.at(1, 5));
    }
    if page.len() != HEAD + ROW * count {
        return Err(Reason::WrongLength.at(1, 1));
    }
    Ok((Head { count, bar }, &page[HEAD..]))
}

// Reads rows, each as that of its place. Behind their places the array has pins at key 0.
fn read_rows(rows: &[u8]) -> Result<[Place; MOST_PLACES], PageRefusal>
    requires { length rows.now ≤ 704 }
    ensures { MatchResult result (λ read. (rows_refusal (length rows.now / 11) 0 None rows.now ≡ None) × (take (length rows.now / 11) read ≡ places_in (length rows.now / 11) rows.now)) (λ e. rows_refusal (length rows.now / 11) 0 None rows.now ≡ Some e) }
{
    let blank = Place {
        key: 0,
        mark: Mark::Pin,
    };
    let mut places = [blank; MOST_PLACES];
    let mut before = None;
    let (rows, _) = rows.as_chunks::<ROW>();
    for (place, row) in rows.iter().enumerate() {
        let read = read_row(row, place, before)?;
        places[place] = read;
        before = Some(read.key);
    }
    Ok(places)
}

impl Theme {
    /// Reads a theme from its page in the place of the one held, or refuses and changes nothing.
    pub fn read(&mut self, page: &[u8]) -> Result<(), PageRefusal>
        ensures answer { result ≡ answer tt (refusal_of page.now) }
        ensures held { self.new ≡ (if is_ok result then theme_in page.now else self.old) }
        ensures exactly { AcceptsExactly page.now (is_ok result) self.new }
    {
        let (head, rows) = read_head(page)?;
        let places = read_rows(rows)?;
        self.places.clear();
        self.places
            .extend_from_slice(&places[..head.count])
            .unwrap();
        self.bar = head.bar;
        Ok(())
    }
}
