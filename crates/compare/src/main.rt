// Holds the answers of the calls against those of a second engine, which tries every line.
#![tactic(auto)]

mod asking;
mod case;
mod dice;
mod family;
mod judging;
mod large;
mod making;
mod restated;
mod sheets;

use books::free::Free;
use family::{Family, Shelf, Size, compare_family};
use large::{Large, count_free, fill_list, fill_sheet, pick_free};
use standing::asking::Asking;
use standing::compass::Compass;
use theme::place::HIGHEST_KEY;

/// The books of each size of cases.
const SHELVES: [Shelf; 3] = [Shelf::Strict, Shelf::Free, Shelf::Layered];

/// The sizes of cases.
const SIZES: [Size; 4] = [
    Size {
        places: 1,
        keys: 24,
        cases: 100,
    },
    Size {
        places: 2,
        keys: 24,
        cases: 60,
    },
    Size {
        places: 3,
        keys: 10,
        cases: 60,
    },
    Size {
        places: 4,
        keys: 7,
        cases: 40,
    },
];

// The number of a refusal, or 0 where there is none.
fn refused<E: Into<u32> + Drop>(answer: Result<(), E>) -> u32 {
    answer.err().map_or(0, E::into)
}

// Says what the calls answer at the ends of their ranges, each refusal by its number, 0 where there is none.
fn run_large(rt: &HostRuntime) -> anyhow::Result<()> {
    let compass = Compass::new(0, HIGHEST_KEY)?;
    let Large {
        sheet,
        longest,
        longer,
    } = fill_sheet(rt.alloc())?;
    let asking = Asking {
        sheet: &sheet,
        book: &Free,
        compass: &compass,
    };
    let number = refused(pick_free(&asking));
    let count = count_free(&asking)?;
    let longest = refused(longest);
    let longer = refused(longer);
    let ninth = refused(fill_list(sheet));
    println!(rt; "refused: 64 places {longest}, 65 places {longer}, ninth combination {ninth}")?;
    println!(rt; "refused: number 1000000000 {number}")?;
    println!(rt; "64 places over the free book: {count} lines")?;
    Ok(())
}

// Compares each family of cases, up to the first that disagrees.
fn run(rt: &HostRuntime) -> anyhow::Result<()> {
    run_large(rt)?;
    let families = SIZES
        .iter()
        .flat_map(|size| SHELVES.map(|shelf| Family { shelf, size: *size }));
    for family in families {
        match compare_family(rt.alloc(), family) {
            Ok(tally) => println!(rt; "{family}: {tally}")?,
            Err(error) => {
                println!(rt; "{family}: {error}")?;
                return Ok(());
            }
        }
    }
    println!(rt; "all agree")?;
    Ok(())
}

fn main(rt: HostRuntime) -> anyhow::Result<()> {
    run(&rt)
}
