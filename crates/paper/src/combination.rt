// Writing a combination of a sheet's list for a line.
ghost use Rattle.std.specs.Prelude.{◌≡◌, ◌+◌, ◌<◌, ◌≤◌, true, ◌++◌, length, take, drop, negsuc, ◌≤ℤ◌, IfOk};
ghost use Rattle.counterpoint.specs.Interval.{shift_in_range};
ghost use Rattle.theme.specs.Refusals.{first_no, answer};
ghost use Rattle.theme.specs.Pages.{fronted};
ghost use Rattle.rules.specs.Plain.{unless, places_of};
ghost use Rattle.paper.specs.Written.{theme_key, combination_head, combination_row, met_row, combination_rows, combination_page, combination_length, line_questions, writing_questions};

use super::columns::signed_columns;
use rules::combination::Combination;
use rules::refusal::Refusal;
use sheet::cells::{key_of, wrong_cell};
use sheet::draft::Closed;
use theme::field::columns;
use theme::theme::{MOST_PLACES, Theme};

/// The bytes of a head.
const HEAD: usize = 13;

/// The bytes of a row.
const ROW: usize = 17;

/// The bytes of the longest combination, one for a theme with the most places.
pub const LONGEST: usize = HEAD + ROW * MOST_PLACES;

// The head of a combination with this number.
fn head(number: usize, combination: Combination) -> [u8; HEAD]
    requires { (number < 8) × (combination.entry < 64) }
    ensures { result ≡ combination_head number combination }
{
    let [a, b, c, d] = columns(number as u32);
    let [e, f, g, h] = signed_columns(combination.jv);
    let [i, j, k, l] = columns(combination.entry as u32);
    [a, b, c, d, e, f, g, h, i, j, k, l, b'\n']
}

// The theme's key at a place, counted round the barrel. `standing` counts so for itself, on what it knows is in range.
fn theme_key(theme: &Theme, place: usize) -> u8
    requires { 0 < length theme.now.places }
    ensures { result ≡ theme_key theme.now.places place }
{
    theme.place(place % theme.len()).unwrap().key
}

// A row, of a place, the line's key as it is raised and the theme's key.
fn row(place: usize, raised: i32, key: u8) -> [u8; ROW]
    requires { (place < 64) × (negsuc 99 ≤ℤ raised) }
    ensures { result ≡ combination_row place raised key }
{
    let [a, b, c, d] = columns(place as u32);
    let [e, f, g, h] = signed_columns(raised);
    let [i, j, k, l] = columns(u32::from(key));
    let [m, n, o, p] = signed_columns(raised - i32::from(key));
    [a, b, c, d, e, f, g, h, i, j, k, l, m, n, o, p, b'\n']
}

// The row of a cell of the line at a place.
fn met_row(theme: &Theme, combination: Combination, place: usize, cell: u8) -> [u8; ROW]
    requires { (place < 64) × ((0 < length theme.now.places) × ((shift_in_range combination.jv ≡ true) × (combination.entry < 64))) }
    ensures { result ≡ met_row theme.now.places combination place cell }
{
    let key = theme_key(theme, place + combination.entry);
    row(place, i32::from(key_of(cell)) + combination.jv, key)
}

// Puts the rows of a line's cells into a buffer, behind a head. By index, in a loop of its own, for
// the reasons beside the loop of a theme's page.
fn put_rows(out: &mut [u8], theme: &Theme, combination: Combination, line: &[u8])
    requires { (length line.now ≤ 64) × ((0 < length theme.now.places) × ((shift_in_range combination.jv ≡ true) × ((combination.entry < 64) × (combination_length (length line.now) ≤ length out.old)))) }
    ensures { out.new ≡ take 13 out.old ++ combination_rows theme.now.places combination 0 line.now ++ drop (combination_length (length line.now)) out.old }
{
    for (place, cell) in line.iter().enumerate() {
        let at = HEAD + ROW * place;
        out[at..at + ROW].copy_from_slice(&met_row(theme, combination, place, *cell));
    }
}

// Sees that the sheet has a theme, and that a line is one for its places.
fn check_line(sheet: &Closed, line: &[u8]) -> Result<(), Refusal>
    ensures { result ≡ answer tt (first_no (line_questions sheet.now line.now)) }
{
    let theme = sheet.theme();
    if theme.is_empty() {
        return Err(Refusal::NoTheme);
    }
    if line.len() != theme.len() {
        return Err(Refusal::LineUnfit);
    }
    match wrong_cell(line) {
        None => Ok(()),
        Some(place) => Err(Refusal::NotALine { place }),
    }
}

/// Writes the combination with this number for a line to the front of a buffer and gives its
/// length, or refuses and changes nothing.
pub fn write_combination(
    sheet: &Closed,
    line: &[u8],
    number: usize,
    out: &mut [u8],
) -> Result<usize, Refusal>
    ensures answer { result ≡ answer (combination_length (places_of sheet.now)) (first_no (writing_questions sheet.now line.now number (length out.old))) }
    ensures written { out.new ≡ unless (first_no (writing_questions sheet.now line.now number (length out.old))) (fronted (combination_page sheet.now line.now number) out.old) out.old }
    ensures long { IfOk result (λ n. n ≡ length (combination_page sheet.now line.now number)) }
    ensures within { IfOk result (λ n. n ≤ length out.old) }
{
    check_line(sheet, line)?;
    let list = sheet.combinations();
    if number >= list.len() {
        return Err(Refusal::NotListed);
    }
    let theme = sheet.theme();
    let length = HEAD + ROW * theme.len();
    if out.len() < length {
        return Err(Refusal::OutputTooShort);
    }
    let combination = list[number];
    out[..HEAD].copy_from_slice(&head(number, combination));
    put_rows(out, theme, combination, line);
    Ok(length)
}
