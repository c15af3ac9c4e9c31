// Reads a theme page from standard input, adds the combination an octave lower, and writes both combinations
// of the line that moves least over the strict book, or says why there is none.
#![tactic(auto)]

ghost use Rattle.std.specs.Prelude.{◌≡◌, ◌*◌, ◌≤◌, IfOk, vec_len};
ghost use Rattle.paper.specs.Written.{combination_length};
ghost use Rattle.rules.specs.Plain.{places_of};

use books::strict::Strict;
use engine::verdicts::CELLS;
use measure::algebra::Measure;
use measure::movement::Movement;
use paper::combination::write_combination;
use question::finding::least;
use rules::refusal::Refusal;
use rules::setting::Setting;
use sheet::draft::{Closed, Draft};
use standing::asking::Asking;
use standing::compass::Compass;
use std::alloc::{AllocError, Global};
use std::io::{Read, Write};
use theme::place::HIGHEST_KEY;
use theme::refusal::PageRefusal;
use theme::theme::MOST_PLACES;

/// How much of the standard input is read, more than the longest page.
const PAGE: u64 = 4096;

/// The working values for the longest line.
const ROOM: usize = CELLS * MOST_PLACES;

/// Two of the longest combinations: each has a head of 13 bytes, and 17 for each place.
const LONGEST: usize = 2 * (13 + 17 * MOST_PLACES);

/// Why nothing is composed.
#[derive(Clone, Copy, Debug)]
enum Halt {
    /// The page is no page of a theme.
    Page(PageRefusal),
    /// A call on the sheet says no.
    Sheet(Refusal),
    /// No memory is left.
    Memory(AllocError),
}

// No derive of `std` writes `From`; `thiserror` does, and the programs rest on `anyhow` alone.
impl From<PageRefusal> for Halt {
    fn from(refusal: PageRefusal) -> Halt {
        Halt::Page(refusal)
    }
}

impl From<Refusal> for Halt {
    fn from(refusal: Refusal) -> Halt {
        Halt::Sheet(refusal)
    }
}

impl From<AllocError> for Halt {
    fn from(error: AllocError) -> Halt {
        Halt::Memory(error)
    }
}

// Both combinations of the least line of a sheet with two, one behind the other.
fn write_both(heap: Global, sheet: &Closed) -> Result<Vec<u8>, Halt>
    ensures whole { IfOk result (λ out. vec_len out ≡ 2 * combination_length (places_of sheet.now)) }
    ensures fits { IfOk result (λ out. vec_len out ≤ 2 * combination_length 64) }
{
    let mut memory = vec![in heap; Movement::NONE; ROOM]?;
    let mut line = [0; MOST_PLACES];
    let compass = Compass::new(0, HIGHEST_KEY)?;
    let asking = Asking {
        sheet,
        book: &Strict,
        compass: &compass,
    };
    least(&asking, &mut memory, &mut line)?;
    let cells = &line[..sheet.theme().len()];
    // the writer fills a lent buffer and answers how much of it
    let mut out = vec![in heap; 0; LONGEST]?;
    let first = write_combination(sheet, cells, 0, &mut out)?;
    let second = write_combination(sheet, cells, 1, &mut out[first..])?;
    out.truncate(first + second);
    Ok(out)
}

// What a page comes to: both combinations of its least line.
fn compose(heap: Global, page: &[u8]) -> Result<Vec<u8>, Halt>
    ensures { IfOk result (λ out. vec_len out ≤ 2 * combination_length 64) }
{
    let mut draft = Draft::blank(heap)?;
    draft.load(page)?;
    draft.add(Setting { jv: -7, entry: 0 })?;
    write_both(heap, &draft.close())
}

fn run(rt: &HostRuntime) -> anyhow::Result<()> {
    let mut page = Vec::new(rt.alloc());
    rt.stdin().take(PAGE).read_to_end(&mut page)?;
    match compose(rt.alloc(), &page) {
        Ok(combinations) => rt.stdout().write_all(&combinations)?,
        // the two refusals are of two types, so that no pattern names both
        Err(Halt::Page(refusal)) => println!(rt; "refused{:>4}", u32::from(refusal))?,
        Err(Halt::Sheet(refusal)) => println!(rt; "refused{:>4}", u32::from(refusal))?,
        Err(Halt::Memory(error)) => return Err(error.into()),
    }
    Ok(())
}

fn main(rt: HostRuntime) -> anyhow::Result<()> {
    run(&rt)
}
