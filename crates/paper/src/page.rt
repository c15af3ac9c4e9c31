// Writing the page of a sheet's theme.
ghost use Rattle.std.specs.Prelude.{◌≡◌, ◌≤◌, length, IfOk};
ghost use Rattle.theme.specs.Refusals.{first_no, answer};
ghost use Rattle.theme.specs.Pages.{page_of, page_length, fronted};
ghost use Rattle.rules.specs.Plain.{unless, places_of};
ghost use Rattle.paper.specs.Written.{page_questions};

use rules::refusal::Refusal;
use sheet::draft::Closed;

/// Writes the page of the sheet's theme to the front of a buffer and gives its length, or refuses
/// and changes nothing.
pub fn write_page(sheet: &Closed, out: &mut [u8]) -> Result<usize, Refusal>
    ensures answer { result ≡ answer (page_length (places_of sheet.now)) (first_no (page_questions sheet.now (length out.old))) }
    ensures written { out.new ≡ unless (first_no (page_questions sheet.now (length out.old))) (fronted (page_of sheet.now.theme) out.old) out.old }
    ensures within { IfOk result (λ n. n ≤ length out.old) }
{
    Ok(sheet.theme().write(out)?)
}
