// The row of one place on a page, read and made. Knows nothing of the page around it.
ghost use Rattle.std.specs.Prelude.{◌≡◌, ◌<◌, ◌≤◌, length, drop, Some, None, MatchResult};
ghost use Rattle.theme.specs.Refusals.{first_no};
ghost use Rattle.theme.specs.Fields.{number_in};
ghost use Rattle.theme.specs.Places.{mark_of};
ghost use Rattle.theme.specs.Pages.{place_in, frame_questions, key_questions, mark_questions, row_questions, row_of};

use super::field::{columns, read_field};
use super::place::{HIGHEST_KEY, Mark, Place};
use super::refusal::{PageRefusal, Reason};

/// The bytes of a row.
pub(crate) const ROW: usize = 11;

// Sees that the row of a place has its blank, its newline and its number.
fn check_frame(row: &[u8; ROW], place: usize) -> Result<(), PageRefusal>
    requires { place < 64 }
    ensures { MatchResult result (λ _. first_no (frame_questions place row.now) ≡ None) (λ e. first_no (frame_questions place row.now) ≡ Some e) }
{
    let line = place + 2;
    if row[8] != b' ' {
        return Err(Reason::BrokenRow.at(line, 9));
    }
    if row[10] != b'\n' {
        return Err(Reason::BrokenRow.at(line, 11));
    }
    match read_field(row) {
        Ok((number, _)) if number as usize == place => Ok(()),
        _ => Err(Reason::WrongPlaceNumber.at(line, 1)),
    }
}

// Reads the key at the front of a field on this line.
fn read_key(field: &[u8], line: usize) -> Result<u8, PageRefusal>
    ensures { MatchResult result (λ key. (first_no (key_questions line field.now) ≡ None) × (number_in field.now ≡ Some key)) (λ e. first_no (key_questions line field.now) ≡ Some e) }
{
    let Ok((key, _)) = read_field(field) else {
        return Err(Reason::KeyNotANumber.at(line, 5));
    };
    if key > u32::from(HIGHEST_KEY) {
        return Err(Reason::KeyOutOfRange.at(line, 5));
    }
    Ok(key as u8)
}

// Reads a mark on this line, at this key after the key `before`.
fn read_mark(letter: u8, line: usize, before: Option<u8>, key: u8) -> Result<Mark, PageRefusal>
    ensures { MatchResult result (λ mark. (first_no (mark_questions line before key letter) ≡ None) × (mark_of letter ≡ Some mark)) (λ e. first_no (mark_questions line before key letter) ≡ Some e) }
{
    let Ok(mark) = Mark::try_from(letter) else {
        return Err(Reason::UnknownMark.at(line, 10));
    };
    if mark == Mark::Bridge && before != Some(key) {
        return Err(Reason::UnlawfulBridge.at(line, 10));
    }
    Ok(mark)
}

// Reads a row as that of a place after the key `before`.
pub(crate) fn read_row(
    row: &[u8; ROW],
    place: usize,
    before: Option<u8>,
) -> Result<Place, PageRefusal>
    requires { place < 64 }
    ensures { MatchResult result (λ read. (first_no (row_questions place before row.now) ≡ None) × (read ≡ place_in row.now)) (λ e. first_no (row_questions place before row.now) ≡ Some e) }
{
    let line = place + 2;
    check_frame(row, place)?;
    let key = read_key(&row[4..], line)?;
    let mark = read_mark(row[9], line, before, key)?;
    Ok(Place { key, mark })
}

// The row of a place with this number.
pub(crate) fn row(number: usize, place: Place) -> [u8; ROW]
    requires { number < 64 }
    ensures { result ≡ row_of number place }
{
    let [a, b, c, d] = columns(number as u32);
    let [e, f, g, h] = columns(u32::from(place.key));
    [a, b, c, d, e, f, g, h, b' ', u8::from(place.mark), b'\n']
}
