// Puts the questions to a closed sheet and holds each answer against the second engine's.
use crate::case::{Case, MOST, ROOM};
use crate::judging::{beginning, judge, least_moved, movement, strings, write_string};
use anyhow::ensure;
use counterpoint::book::Book;
use measure::algebra::Measure;
use measure::movement::Movement;
use measure::number::Number;
use measure::possible::Possible;
use question::finding::{decide, least, pick};
use question::trying::count_trying;
use question::weighing::{count, weigh};
use rules::refusal::Refusal;
use rules::trial::Trial;
use standing::asking::Asking;
use standing::checking::check;
use std::alloc::Global;

/// How many picks are asked in each case, besides the last line and the one after it.
const PICKS: u32 = 8;

/// The sum of step sizes that the rules of the measure name for no line.
const NO_LINE: u32 = 1_000_000;

/// What the questions are asked of, and the case that it comes from.
#[derive(Drop)]
pub struct Asked<'a, B> {
    pub heap: Global,
    pub case: &'a Case,
    pub asking: &'a Asking<'a, B>,
}

// Whether a question answered as it was expected to, and wrote the expected line, or none, and nothing behind it.
fn agrees(told: Result<(), Refusal>, written: &[u8], expected: Result<&Vec<u8>, Refusal>) -> bool {
    let line = expected.map(Vec::as_slice).unwrap_or_default();
    told == expected.map(|_| ())
        && written
            .strip_prefix(line)
            .is_some_and(|rest| rest.iter().all(|cell| *cell == 0))
}

impl<B: Book> Asked<'_, B> {
    // Compares what check says of a string of cells, and says whether it stands.
    fn compare_check(&self, cells: &[u8]) -> anyhow::Result<bool> {
        let judged = judge(self.case, cells);
        let told = check(self.asking, cells);
        ensure!(told == judged, "check disagrees");
        Ok(judged.is_ok())
    }

    /// All strings in the compass that stand, in order.
    pub(crate) fn check_strings(&self) -> anyhow::Result<Vec<Vec<u8>>> {
        let mut lines = Vec::new(self.heap);
        let mut line = vec![in self.heap; 0; self.case.places.len()]?;
        for number in 0..strings(self.case) {
            write_string(self.case, number, &mut line);
            if self.compare_check(&line)? {
                lines.push(line.clone()?)?;
            }
        }
        Ok(lines)
    }

    // Compares check on the strings with cells of any kind.
    fn compare_strays(&self) -> anyhow::Result<()> {
        for stray in self.case.strays.iter() {
            self.compare_check(stray)?;
        }
        Ok(())
    }

    // Compares decide, and weigh over yes and no.
    fn compare_first(&self, lines: &[Vec<u8>]) -> anyhow::Result<()> {
        let mut memory = [Possible::NONE; ROOM];
        let mut line = [0; MOST];
        let told = decide(self.asking, &mut memory, &mut line);
        let first = lines.first().ok_or(Refusal::NoLineStands);
        ensure!(agrees(told, &line, first), "decide disagrees");
        let weighed = weigh(self.asking, &mut memory).map(|weight| weight.found);
        ensure!(weighed == Ok(!lines.is_empty()), "weigh disagrees");
        Ok(())
    }

    // Compares count, and weigh over numbers.
    fn compare_number(&self, lines: &[Vec<u8>]) -> anyhow::Result<()> {
        let mut memory = [Number::NONE; ROOM];
        let number = u32::try_from(lines.len())?;
        let told = count(self.asking, &mut memory);
        ensure!(told == Ok(number), "count disagrees");
        let weighed = weigh(self.asking, &mut memory).map(|weight| weight.value);
        ensure!(weighed == Ok(number), "weigh disagrees");
        Ok(())
    }

    // Compares least, and weigh over movements.
    fn compare_least(&self, lines: &[Vec<u8>]) -> anyhow::Result<()> {
        // what the memory has before is not to matter, so it is not none here
        let mut memory = [Movement::ONE; ROOM];
        let mut line = [0; MOST];
        let told = least(self.asking, &mut memory, &mut line);
        let best = least_moved(lines);
        let expected = best.ok_or(Refusal::NoLineStands);
        ensure!(agrees(told, &line, expected), "least disagrees");
        let sum = best.map_or(NO_LINE, |line| movement(line));
        let weighed = weigh(self.asking, &mut memory).map(|weight| weight.sum);
        ensure!(weighed == Ok(sum), "weigh disagrees");
        Ok(())
    }

    // Compares the line with one number.
    fn compare_pick(&self, lines: &[Vec<u8>], number: u32) -> anyhow::Result<()> {
        let mut memory = [Number::NONE; ROOM];
        let mut line = [0; MOST];
        let told = pick(self.asking, &mut memory, &mut line, number);
        let picked = lines.get(number as usize);
        let expected = picked.ok_or(Refusal::NumberNotBelowCount);
        ensure!(agrees(told, &line, expected), "pick disagrees");
        Ok(())
    }

    // Compares every line of a short roster, some of a long one, and the last and the one after it.
    fn compare_picks(&self, lines: &[Vec<u8>]) -> anyhow::Result<()> {
        let number = u32::try_from(lines.len())?;
        let stride = (number / PICKS).max(1);
        let ends = [number.saturating_sub(1), number];
        for picked in (0..PICKS)
            .map(|turn| turn.saturating_mul(stride))
            .chain(ends)
        {
            self.compare_pick(lines, picked)?;
        }
        Ok(())
    }

    // Compares the count under a trial of a first key, where the case has no trial of its own.
    fn compare_trying(&self, lines: &[Vec<u8>]) -> anyhow::Result<()> {
        let middle = lines.get(lines.len() / 2).and_then(|line| line.first());
        let (None, Some(cell)) = (self.case.trial, middle) else {
            return Ok(());
        };
        let key = cell / 2;
        let trial = Trial { place: 0, key };
        let number = u32::try_from(beginning(lines, key))?;
        let mut memory = [Number::NONE; ROOM];
        let Asking { sheet, book, .. } = *self.asking;
        let mut compass = *self.asking.compass;
        let told = count_trying(sheet, book, &mut compass, trial, &mut memory);
        ensure!(told == Ok(number), "count under a trial disagrees");
        Ok(())
    }

    /// Compares all questions with the lines that stand.
    pub(crate) fn compare(&self, lines: &[Vec<u8>]) -> anyhow::Result<()> {
        self.compare_strays()?;
        self.compare_first(lines)?;
        self.compare_number(lines)?;
        self.compare_least(lines)?;
        self.compare_picks(lines)?;
        self.compare_trying(lines)
    }
}
