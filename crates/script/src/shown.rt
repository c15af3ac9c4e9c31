// How answers are shown. Knows nothing of the calls that they answer.
ghost use Rattle.std.specs.Prelude.{Some};
ghost use Rattle.script.specs.Words.{weight_words, line_words, answer_words};

use course::answer::Answer;
use measure::algebra::Measure;
use measure::movement::Movement;
use std::fmt;

// An answer, a weight and cells have wrappers here, since their words are the script's and their types are not.

/// A least sum of steps, or that there is none.
#[derive(Drop)]
pub struct Weight(pub Movement);

impl fmt::Display for Weight {
    ghost output = { λ weight. Some (weight_words weight.0) };

    fn fmt<W: fmt::Write>(&self, f: &mut fmt::Formatter<W>) -> fmt::Result {
        if self.0 == Movement::NONE {
            f.write_str("weight none")
        } else {
            let sum = self.0.sum;
            write!(f, "weight {sum}")
        }
    }
}

/// The cells of a line.
#[derive(Drop)]
pub struct Cells<'a>(pub &'a [u8]);

impl fmt::Display for Cells<'_> {
    ghost output = { λ cells. Some (line_words cells.0.now) };

    fn fmt<W: fmt::Write>(&self, f: &mut fmt::Formatter<W>) -> fmt::Result {
        f.write_str("line")?;
        for cell in self.0 {
            write!(f, " {cell}")?;
        }
        Ok(())
    }
}

/// An answer.
#[derive(Drop)]
pub struct Shown<'a>(pub &'a Answer<Movement>);

impl fmt::Display for Shown<'_> {
    ghost output = { λ shown. Some (answer_words shown.0.now) };

    fn fmt<W: fmt::Write>(&self, f: &mut fmt::Formatter<W>) -> fmt::Result {
        match self.0 {
            Answer::Away => f.write_str("not let through"),
            Answer::PageRefused(refusal) => refusal.fmt(f),
            Answer::Refused(refusal) => refusal.fmt(f),
            Answer::Done => f.write_str("done"),
            Answer::Line(line) => Cells(line).fmt(f),
            Answer::Number(number) => write!(f, "number {number}"),
            Answer::Weight(weight) => Weight(*weight).fmt(f),
        }
    }
}
