// The strict book.
// Knows nothing of the free one. Clauses take a motion apart, as the rules speak of intervals and of steps.
ghost use Rattle.std.specs.Prelude.{◌≡◌};
ghost use Rattle.counterpoint.specs.Moments.{one_held};
ghost use Rattle.books.specs.Strict.{strict_admits, strict_allows, strict_rule, strict_rules, singable, no_hidden_perfect, no_repeated_perfect, no_two_dissonances, left_well, entered_well, moves_well, treats_dissonance};
ghost use Rattle.std.proofs.Common.{rules};

use crate::motion::{Motion, Steps};
use counterpoint::book::Book;
use counterpoint::interval::{class, is_dissonant, is_interval_in_range, is_perfect};
use counterpoint::moments::{Accent, Moment, Succession, Voice};

/// The strict book: dissonances are held over and resolved by step, perfect consonances approached with care.
#[derive(Clone, Copy, PartialEq, Eq, Hash, Debug)]
pub struct Strict;

// The verdicts on moments: for each class from 0 to 6, with the line struck and with it held, and
// for each of these with the theme struck and with it held. They are a constant table by a rule of
// the project, which wants all 28 written out and proved equal to the rule on moments.
const VERDICTS: [[[bool; 2]; 2]; 7] = [
    [[true, true], [true, true]], // unisons and octaves
    [[false, true], [true, false]], // seconds
    [[true, true], [true, true]], // thirds
    [[false, true], [true, false]], // fourths
    [[true, true], [true, true]], // fifths
    [[true, true], [true, true]], // sixths
    [[false, true], [true, false]], // sevenths
];

// What the table says of a moment.
fn verdict(moment: Moment) -> bool
    ensures { result ≡ strict_rule moment }
{
    VERDICTS[class(moment.interval) as usize][moment.line as usize][moment.theme as usize]
}

// Whether the line can sing a step.
fn is_singable(step: i32) -> bool
    ensures { result ≡ singable step }
{
    matches!(step.unsigned_abs(), 0..=5 | 7)
}

// Whether a motion avoids a perfect second interval with both voices up or both down.
fn avoids_hidden_perfect(motion: Motion) -> bool
    ensures { result ≡ no_hidden_perfect motion.second.interval motion.steps.line motion.steps.theme }
{
    !(is_perfect(motion.second.interval) && motion.steps.are_similar())
}

// Whether a motion avoids a second interval of the first one's perfect class while both voices move.
fn avoids_repeated_perfect(motion: Motion) -> bool
    ensures { result ≡ no_repeated_perfect motion.first.interval motion.second.interval motion.steps.line motion.steps.theme }
{
    !(motion.keeps_perfect_class() && motion.steps.both_move())
}

// Whether at most one of the two intervals of a motion is a dissonance.
fn avoids_two_dissonances(motion: Motion) -> bool
    ensures { result ≡ no_two_dissonances motion.first.interval motion.second.interval }
{
    !(is_dissonant(motion.first.interval) && is_dissonant(motion.second.interval))
}

// Whether exactly one voice is held at a moment.
fn has_one_held(moment: Moment) -> bool
    ensures { result ≡ one_held moment }
{
    moment.line != moment.theme
}

// Whether a moment, if it is a dissonance, is well entered by the steps that lead to it.
fn enters_well(second: Moment, steps: Steps) -> bool
    ensures { result ≡ entered_well second steps.line steps.theme }
{
    let (struck, _) = steps.struck_and_held(second);
    !is_dissonant(second.interval)
        || has_one_held(second) && (second.accent == Accent::Strong || struck.unsigned_abs() == 1)
}

// Whether a moment, if it is a dissonance, is well left by the steps that lead on from it.
fn leaves_well(first: Moment, steps: Steps) -> bool
    ensures { result ≡ left_well first steps.line steps.theme }
{
    let (struck, held) = steps.struck_and_held(first);
    !is_dissonant(first.interval)
        || has_one_held(first)
            && match first.accent {
                Accent::Weak => struck.unsigned_abs() == 1,
                Accent::Strong => held == -1,
            }
}

// Whether a motion keeps the rules of motion.
fn moves_well(motion: Motion) -> bool
    ensures { result ≡ moves_well motion.first.interval motion.second.interval motion.steps.line motion.steps.theme }
{
    is_singable(motion.steps.line)
        && avoids_hidden_perfect(motion)
        && avoids_repeated_perfect(motion)
}

// Whether a motion keeps the rules of dissonance.
fn treats_dissonance(motion: Motion) -> bool
    ensures { result ≡ treats_dissonance motion.first motion.second motion.steps.line motion.steps.theme }
{
    avoids_two_dissonances(motion)
        && leaves_well(motion.first, motion.steps)
        && enters_well(motion.second, motion.steps)
}

// Whether a motion keeps every rule.
fn keeps_rules(motion: Motion) -> bool
    ensures { result ≡ strict_rules motion.first motion.second motion.steps.line motion.steps.theme }
{
    moves_well(motion) && treats_dissonance(motion)
}

impl Book for Strict {
    ghost admits = { λ _. strict_admits };

    ghost allows = { λ _. strict_allows };

    ghost bounded = { Prim.search rules };

    fn admits(&self, moment: Moment) -> bool {
        is_interval_in_range(moment.interval) && verdict(moment)
    }

    fn allows(&self, succession: Succession) -> bool {
        Motion::of(succession).is_some_and(keeps_rules)
    }
}
