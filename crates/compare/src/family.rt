// Families of cases that are alike in their number of places and their books.
ghost use Rattle.std.specs.Prelude.{◌≡◌, ◌<◌, ◌≤◌, IfOk};

use crate::asking::Asked;
use crate::case::Case;
use crate::dice::Dice;
use crate::judging::strings;
use crate::making::make_case;
use crate::restated::Base;
use crate::sheets::{closed_sheet, compass};
use anyhow::{Context, anyhow};
use books::free::Free;
use books::strict::Strict;
use books::vertical::Vertical;
use counterpoint::book::Book;
use standing::asking::Asking;
use std::alloc::Global;
use std::fmt;

/// Which books a family has.
#[derive(Clone, Copy)]
pub enum Shelf {
    Strict,
    Free,
    Layered,
}

/// How many places the cases of a family have, how many keys their compasses, and how many cases there are.
#[derive(Clone, Copy)]
pub struct Size {
    pub places: u8,
    pub keys: u8,
    pub cases: u32,
    ghost inhabited: { 0 < places },
    ghost few: { places ≤ 4 },
    ghost wide: { 0 < keys },
    ghost narrow: { keys ≤ 24 },
}

/// Cases of one size, with books of one shelf.
#[derive(Clone, Copy)]
pub struct Family {
    pub shelf: Shelf,
    pub size: Size,
}

impl fmt::Display for Shelf {
    fn fmt<W: fmt::Write>(&self, f: &mut fmt::Formatter<W>) -> fmt::Result {
        f.write_str(match self {
            Shelf::Strict => "strict book",
            Shelf::Free => "free book",
            Shelf::Layered => "layered books",
        })
    }
}

impl fmt::Display for Family {
    fn fmt<W: fmt::Write>(&self, f: &mut fmt::Formatter<W>) -> fmt::Result {
        let Family { shelf, size } = self;
        write!(f, "{shelf}, places {}, keys {}", size.places, size.keys)
    }
}

/// What the comparison of cases comes to.
#[derive(Clone, Copy, Default)]
pub struct Tally {
    /// How many cases were compared.
    pub cases: u32,
    /// How many strings of cells were tried.
    pub tried: usize,
    /// How many of those in the compasses stood.
    pub stood: usize,
}

impl fmt::Display for Tally {
    fn fmt<W: fmt::Write>(&self, f: &mut fmt::Formatter<W>) -> fmt::Result {
        let Tally {
            cases,
            tried,
            stood,
        } = self;
        write!(f, "{cases} cases, {tried} tried, {stood} stand")
    }
}

// Compares one case over a book, and says how many strings stood.
fn compare_over<B: Book>(heap: Global, case: &Case, book: &B) -> anyhow::Result<usize> {
    let sheet = closed_sheet(heap, case)?;
    let compass = compass(case).context("a compass or a trial is refused")?;
    let asking = Asking {
        sheet: &sheet,
        book,
        compass: &compass,
    };
    let asked = Asked {
        heap,
        case,
        asking: &asking,
    };
    let lines = asked.check_strings()?;
    asked.compare(&lines)?;
    Ok(lines.len())
}

// A layer over a book.
fn layer<B: Book + Drop>(book: B, shift: i32) -> anyhow::Result<Vertical<B>> {
    Vertical::new(book, shift).context("a layer is refused")
}

// Compares one case over a book under the outer layer of the case. Each layer is another type of book.
fn compare_outside<B: Book + Drop>(heap: Global, case: &Case, book: B) -> anyhow::Result<usize> {
    match case.rules.outer {
        Some(shift) => compare_over(heap, case, &layer(book, shift)?),
        None => compare_over(heap, case, &book),
    }
}

// Compares one case over a book under all layers of the case.
fn compare_under<B: Book + Drop>(heap: Global, case: &Case, book: B) -> anyhow::Result<usize> {
    match case.rules.inner {
        Some(shift) => compare_outside(heap, case, layer(book, shift)?),
        None => compare_outside(heap, case, book),
    }
}

// Compares the next case of a family.
fn compare_next(heap: Global, dice: &mut Dice, family: Family) -> anyhow::Result<Tally>
    ensures { IfOk result (λ tally. tally.cases ≡ 1) }
{
    let case = make_case(heap, dice, family)?;
    let stood = match case.rules.base {
        Base::Strict => compare_under(heap, &case, Strict)?,
        Base::Free => compare_under(heap, &case, Free)?,
    };
    let tried = case.strays.len().saturating_add(strings(&case) as usize);
    Ok(Tally {
        cases: 1,
        tried,
        stood,
    })
}

/// Compares every case of a family.
pub(crate) fn compare_family(heap: Global, family: Family) -> anyhow::Result<Tally>
    ensures { IfOk result (λ tally. tally.cases ≡ family.size.cases) }
{
    // the kind of the books counts only here, so that each family has dice of its own
    let state = u32::from(family.size.places) * 3 + family.shelf as u32;
    let mut dice = Dice { state };
    let mut tally = Tally::default();
    for cases in 0..family.size.cases {
        let next = compare_next(heap, &mut dice, family).map_err(|error| anyhow!(
            "after {cases} cases {error}"
        ))?;
        tally.cases = tally.cases.saturating_add(next.cases);
        tally.tried = tally.tried.saturating_add(next.tried);
        tally.stood = tally.stood.saturating_add(next.stood);
    }
    Ok(tally)
}
