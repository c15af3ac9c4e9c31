// Writing the page of a theme into a lent buffer.
ghost use Rattle.std.specs.Prelude.{◌≡◌, ◌+◌, ◌*◌, ◌<◌, ◌≤◌, true, ◌++◌, length, take, drop, is_ok, IfOk, if◌then◌else◌};
ghost use Rattle.theme.specs.Refusals.{first_no, answer};
ghost use Rattle.theme.specs.Pages.{head_of, rows_of, page_of, page_length, write_questions, fronted, ReadsBack};

use super::field::columns;
use super::place::Place;
use super::refusal::WriteRefusal;
use super::row::{ROW, row};
use super::theme::{MOST_PLACES, Theme};

/// The bytes of a head.
pub(crate) const HEAD: usize = 9;

/// The bytes of the longest page, that of a theme with the most places.
pub const LONGEST: usize = HEAD + ROW * MOST_PLACES;

// The head of a page.
fn head(count: usize, bar: usize) -> [u8; HEAD]
    requires { (count ≤ 64) × (bar ≤ 64) }
    ensures { result ≡ head_of count bar }
{
    let [a, b, c, d] = columns(count as u32);
    let [e, f, g, h] = columns(bar as u32);
    [a, b, c, d, e, f, g, h, b'\n']
}

// Puts the rows of places into a buffer, behind a head. By index: once the borrow of a
// `chunks_exact_mut` is over, a proof knows the buffer's length and not its bytes. `paper` has a loop
// of its own: one for both would take the row as a closure, and ask of callers that it can be called.
fn put_rows(out: &mut [u8], places: &[Place])
    requires { (length places.now ≤ 64) × (page_length (length places.now) ≤ length out.old) }
    ensures { out.new ≡ take 9 out.old ++ rows_of 0 places.now ++ drop (page_length (length places.now)) out.old }
{
    for (number, place) in places.iter().enumerate() {
        let at = HEAD + ROW * number;
        out[at..at + ROW].copy_from_slice(&row(number, *place));
    }
}

impl Theme {
    /// Writes the theme's page to the front of a buffer and gives its length, or refuses and
    /// changes nothing.
    pub fn write(&self, out: &mut [u8]) -> Result<usize, WriteRefusal>
        ensures answer { result ≡ answer (page_length (length self.now.places)) (first_no (write_questions self.now (length out.old))) }
        ensures written { out.new ≡ (if is_ok result then fronted (page_of self.now) out.old else out.old) }
        ensures within { IfOk result (λ n. n ≤ length out.old) }
        ensures again { is_ok result ≡ true → ReadsBack self.now }
    {
        if self.is_empty() {
            return Err(WriteRefusal::NoTheme);
        }
        let count = self.len();
        let length = HEAD + ROW * count;
        if out.len() < length {
            return Err(WriteRefusal::OutputTooShort);
        }
        out[..HEAD].copy_from_slice(&head(count, self.bar));
        put_rows(out, &self.places);
        Ok(length)
    }
}
