// Brings a case to a closed sheet and a compass, by the calls and with detours that leave no trace.
// Knows nothing of lines.
use crate::case::{Case, Place};
use anyhow::Context;
use counterpoint::moments::Voice;
use rules::combination::Combination;
use rules::refusal::Refusal;
use rules::setting::Setting;
use rules::trial::Trial;
use sheet::draft::{Closed, Draft};
use standing::compass::Compass;
use std::alloc::{AllocError, Global};
use std::fmt::Write;

/// The page of a theme.
pub(crate) fn page(heap: Global, bar: u8, places: &[Place]) -> Result<String, AllocError> {
    let count = places.len();
    let mut text = format!(in heap; "{count:>4}{bar:>4}\n")?;
    for (number, place) in places.iter().enumerate() {
        let key = place.key;
        let mark = match place.voice {
            Voice::Struck => 'p',
            Voice::Held => 'b',
        };
        writeln!(text, "{number:>4}{key:>4} {mark}")?;
    }
    Ok(text)
}

// Adds the listed combinations but the original.
fn add_all(draft: &mut Draft, combinations: &[Combination]) -> Result<(), Refusal> {
    for combination in combinations.iter().skip(1) {
        let entry = i32::try_from(combination.entry).map_err(|_| Refusal::EntryOutOfRange)?;
        draft.add(Setting {
            jv: combination.jv,
            entry,
        })?;
    }
    Ok(())
}

// Fixes every place, and then fixes it again or frees it.
fn fix_all(draft: &mut Draft, places: &[Place]) -> Result<(), Refusal> {
    for (number, place) in places.iter().enumerate() {
        draft.fix(number, 5)?;
        match place.fixed {
            Some(key) => draft.fix(number, key)?,
            None => draft.free(number)?,
        }
    }
    Ok(())
}

// Lists and fixes what a case has, on a draft that has its theme. Meanwhile a combination stands before the
// others that no case lists.
fn change_all(draft: &mut Draft, case: &Case) -> Result<(), Refusal> {
    let detour = Setting { jv: 23, entry: 0 };
    draft.add(detour)?;
    add_all(draft, &case.combinations)?;
    draft.drop(detour)?;
    fix_all(draft, &case.places)
}

/// The closed sheet of a case.
pub(crate) fn closed_sheet(heap: Global, case: &Case) -> anyhow::Result<Closed> {
    let text = page(heap, case.bar, &case.places)?;
    let mut draft = Draft::blank(heap)?;
    draft.load(text.as_bytes()).context("load is refused")?;
    let mut draft = draft.close().reopen();
    change_all(&mut draft, case).context("a change of the sheet is refused")?;
    Ok(draft.close())
}

/// The compass of a case, with its trial; one that is not possible leaves that in force.
pub(crate) fn compass(case: &Case) -> Result<Compass, Refusal> {
    let mut compass = Compass::new(case.keys.lowest, case.keys.highest)?;
    if let Some(trial) = case.trial {
        compass.inquire(trial)?;
        compass.enter(trial);
    }
    compass.enter(Trial { place: 0, key: 24 });
    Ok(compass)
}
