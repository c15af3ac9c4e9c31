// Makes cases by dice. Knows nothing of what stands.
ghost use Rattle.std.specs.Prelude.{◌≡◌, ◌<◌, ◌≤◌, IfOk, vec_len};

use crate::case::{Case, Keys, Place};
use crate::dice::Dice;
use crate::family::{Family, Shelf};
use crate::restated::{Base, Rules};
use counterpoint::moments::{Accent, Voice};
use rules::combination::{Combination, ORIGINAL};
use rules::trial::Trial;
use std::alloc::{AllocError, Global};
use theme::place::HIGHEST_KEY;

/// How many stray strings there are in each case.
const STRAYS: u32 = 40;

// A bar length for so many places.
fn make_bar(dice: &mut Dice, places: u8) -> u8
    requires { 0 < places }
    ensures { 0 < result }
{
    let bar = dice.below(places) + 1;
    if places.is_multiple_of(bar) {
        bar
    } else {
        places
    }
}

// The key after a key: not more than four keys away.
fn next_key(dice: &mut Dice, before: u8) -> u8 {
    before
        .saturating_add(dice.below(9))
        .saturating_sub(4)
        .min(HIGHEST_KEY)
}

// The places of a theme: pins, and bridges behind some of them. No key is fixed yet.
fn make_places(heap: Global, dice: &mut Dice, count: u8, bar: u8) -> Result<Vec<Place>, AllocError>
    requires { 0 < bar }
    ensures { IfOk result (λ places. vec_len places ≡ count) }
{
    let mut places = Vec::new(heap);
    let mut key = dice.below(16) + 4;
    for place in 0..count {
        let voice = if place > 0 && dice.chance(4) {
            Voice::Held
        } else {
            Voice::Struck
        };
        if place > 0 && voice == Voice::Struck {
            key = next_key(dice, key);
        }
        let accent = if place.is_multiple_of(bar) {
            Accent::Strong
        } else {
            Accent::Weak
        };
        places.push(Place {
            key,
            voice,
            accent,
            fixed: None,
        })?;
    }
    Ok(places)
}

// A list of combinations, none of them twice.
fn make_combinations(
    heap: Global,
    dice: &mut Dice,
    places: u8,
) -> Result<Vec<Combination>, AllocError>
    requires { 0 < places }
{
    let mut combinations = vec![in heap; ORIGINAL]?;
    for _ in 0..dice.below(3) {
        let jv = dice.shift();
        let entry = usize::from(dice.below(places));
        let combination = Combination { jv, entry };
        if !combinations.contains(&combination) {
            combinations.push(combination)?;
        }
    }
    Ok(combinations)
}

// The keys of a compass of so many.
fn make_keys(dice: &mut Dice, count: u8) -> Keys
    requires { (0 < count) × (count ≤ 24) }
{
    let lowest = dice.below(25 - count);
    let highest = lowest + count - 1;
    Keys { lowest, highest }
}

// A key of a compass.
fn make_key(dice: &mut Dice, keys: Keys) -> u8 {
    keys.lowest + dice.below(keys.count())
}

// A fixed key or none; now and then the key lies outside the compass.
fn make_fixing(dice: &mut Dice, keys: Keys) -> Option<u8> {
    if !dice.chance(8) {
        None
    } else if dice.chance(8) {
        Some(dice.below(24))
    } else {
        Some(make_key(dice, keys))
    }
}

// A trial or none.
fn make_trial(dice: &mut Dice, places: u8, keys: Keys) -> Option<Trial>
    requires { 0 < places }
{
    if !dice.chance(5) {
        return None;
    }
    let place = usize::from(dice.below(places));
    let key = make_key(dice, keys);
    Some(Trial { place, key })
}

// The rules of a book of a shelf.
fn make_rules(dice: &mut Dice, shelf: Shelf) -> Rules {
    let base = match shelf {
        Shelf::Strict => Base::Strict,
        Shelf::Free => Base::Free,
        Shelf::Layered if dice.chance(2) => Base::Strict,
        Shelf::Layered => Base::Free,
    };
    let (inner, outer) = match shelf {
        Shelf::Strict | Shelf::Free => (None, None),
        Shelf::Layered if dice.chance(2) => (Some(dice.shift()), None),
        Shelf::Layered => (Some(dice.shift()), Some(dice.shift())),
    };
    Rules { base, inner, outer }
}

// A string of cells of any kind, of which many hold the key before.
fn make_stray(heap: Global, dice: &mut Dice, places: u8) -> Result<Vec<u8>, AllocError> {
    let mut line = Vec::new(heap);
    let mut before = 0;
    for _ in 0..places {
        before = match dice.below(8) {
            0 => dice.below(255),
            1..=3 => before | 1,
            _ => 2 * dice.below(24),
        };
        line.push(before)?;
    }
    Ok(line)
}

// As many stray strings as a case has.
fn make_strays(heap: Global, dice: &mut Dice, places: u8) -> Result<Vec<Vec<u8>>, AllocError> {
    let mut strays = Vec::new(heap);
    for _ in 0..STRAYS {
        strays.push(make_stray(heap, dice, places)?)?;
    }
    Ok(strays)
}

/// A case of a family.
pub(crate) fn make_case(heap: Global, dice: &mut Dice, family: Family) -> Result<Case, AllocError> {
    let count = family.size.places;
    let bar = make_bar(dice, count);
    let mut places = make_places(heap, dice, count, bar)?;
    let combinations = make_combinations(heap, dice, count)?;
    let keys = make_keys(dice, family.size.keys);
    for place in places.iter_mut() {
        place.fixed = make_fixing(dice, keys);
    }
    let trial = make_trial(dice, count, keys);
    let rules = make_rules(dice, family.shelf);
    let strays = make_strays(heap, dice, count)?;
    Ok(Case {
        places,
        bar,
        combinations,
        keys,
        trial,
        rules,
        strays,
    })
}
