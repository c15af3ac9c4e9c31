// The second engine: numbers every string of cells in the compass and judges each by the rules alone.
// Knows nothing of sheets, books, measures or tables.
ghost use Rattle.std.specs.Prelude.{◌<◌, length};

use crate::case::Case;
use counterpoint::moments::{Moment, Succession, Voice};
use rules::combination::Combination;
use rules::refusal::Refusal;

// A case in one of its combinations.
#[derive(Clone, Copy)]
struct Setting<'a> {
    case: &'a Case,
    combination: Combination,
}

impl Setting<'_> {
    // The moment of a cell at a place of the line.
    fn moment(self, place: usize, cell: u8) -> Moment {
        let met = self.case.place(place.wrapping_add(self.combination.entry));
        let apart = i32::from(cell / 2) - i32::from(met.key);
        let line = if cell % 2 == 0 {
            Voice::Struck
        } else {
            Voice::Held
        };
        Moment {
            interval: apart.wrapping_add(self.combination.jv),
            line,
            theme: met.voice,
            accent: met.accent,
        }
    }

    // The succession from a cell at a place of the line to the next cell.
    fn succession(self, place: usize, cell: u8, next: u8) -> Succession {
        let left = place.wrapping_add(self.combination.entry);
        let second = self.moment(place.wrapping_add(1), next);
        let before = self.case.place(left);
        let after = self.case.place(left.wrapping_add(1));
        Succession {
            first: self.moment(place, cell),
            dx: i32::from(next / 2) - i32::from(cell / 2),
            dc: i32::from(after.key) - i32::from(before.key),
            line: second.line,
            theme: second.theme,
            accent: second.accent,
        }
    }

    // The first place whose moment or succession the rules refuse.
    fn denied_place(self, line: &[u8]) -> Option<usize> {
        let next = line.iter().cycle().skip(1);
        line.iter().zip(next).enumerate().position(|(place, (cell, next))| {
            !self.case.rules.agrees(self.succession(place, *cell, *next))
        })
    }
}

// Sees that each cell is one, and that a held one has the key before it.
fn check_cells(line: &[u8]) -> Result<(), Refusal> {
    let mut before = None;
    for (place, cell) in line.iter().enumerate() {
        let key = cell / 2;
        if *cell > 47 || cell % 2 == 1 && before != Some(key) {
            return Err(Refusal::NotALine { place });
        }
        before = Some(key);
    }
    Ok(())
}

// Whether a key may stand at a place, as far as compass, trial and fixed keys go.
fn keeps(case: &Case, place: usize, key: u8) -> bool {
    let tried = case
        .trial
        .is_none_or(|trial| trial.place != place || trial.key == key);
    let fixed = case.place(place).fixed.is_none_or(|fixed| fixed == key);
    case.keys.contains(key) && tried && fixed
}

// Sees that each key may stand at its place.
fn check_kept(case: &Case, line: &[u8]) -> Result<(), Refusal> {
    let denied = line
        .iter()
        .enumerate()
        .position(|(place, cell)| !keeps(case, place, cell / 2));
    match denied {
        Some(place) => Err(Refusal::NotKept { place }),
        None => Ok(()),
    }
}

// Sees that the rules agree in each combination.
fn check_agreed(case: &Case, line: &[u8]) -> Result<(), Refusal> {
    let denied = case.combinations.iter().enumerate().find_map(|(combination, setting)| {
        let setting = Setting {
            case,
            combination: *setting,
        };
        let place = setting.denied_place(line)?;
        Some(Refusal::BookSaysNo { combination, place })
    });
    match denied {
        Some(refusal) => Err(refusal),
        None => Ok(()),
    }
}

/// Sees whether a string of cells stands.
pub(crate) fn judge(case: &Case, line: &[u8]) -> Result<(), Refusal> {
    check_cells(line)?;
    check_kept(case, line)?;
    check_agreed(case, line)
}

/// How many strings of cells there are in the compass.
pub(crate) fn strings(case: &Case) -> u32 {
    let cells = 2 * u32::from(case.keys.count());
    cells.pow(case.places.len() as u32)
}

/// Writes the string of cells with a number, counted in order from 0.
// Into a lent string, as most strings are judged once and then no more.
pub(crate) fn write_string(case: &Case, number: u32, line: &mut [u8]) {
    let cells = 2 * u32::from(case.keys.count());
    let lowest = 2 * case.keys.lowest;
    let mut rest = number;
    for cell in line.iter_mut().rev() {
        *cell = lowest + (rest % cells) as u8;
        rest /= cells;
    }
}

/// The sum of step sizes of a line, round the barrel.
pub(crate) fn movement(line: &[u8]) -> u32 {
    let next = line.iter().cycle().skip(1);
    line.iter()
        .zip(next)
        .map(|(cell, next)| u32::from((cell / 2).abs_diff(next / 2)))
        .fold(0, u32::saturating_add)
}

/// The first of the lines that move least.
pub(crate) fn least_moved(lines: &[Vec<u8>]) -> Option<&Vec<u8>> {
    lines.iter().min_by_key(|line| movement(line))
}

/// How many of the lines begin with a key.
pub(crate) fn beginning(lines: &[Vec<u8>], key: u8) -> usize {
    lines
        .iter()
        .filter(|line| line.first().is_some_and(|cell| cell / 2 == key))
        .count()
}
