// Printing a played script: each line with its answer, and what is written at the end.
use course::answer::Answer;
use course::running::Played;
use course::state::State;
use measure::movement::Movement;
use paper::combination::write_combination;
use script::gathering::{Row, Script, Writing};
use script::shown::Shown;
use std::io;
use std::io::Write;
use theme::theme::MOST_PLACES;

/// The longest combination: a head of 13 bytes, and 17 for each place.
const LONGEST: usize = 13 + 17 * MOST_PLACES;

// The last line that an answer gave.
fn last_line(answers: &[Answer<Movement>]) -> &[u8] {
    answers
        .iter()
        .rev()
        .find_map(|answer| match answer {
            Answer::Line(line) => Some(line.as_slice()),
            _ => None,
        })
        .unwrap_or_default()
}

// Prints each line that makes a call with its answer, and each that makes none with its refusal.
fn print_rows(rt: &HostRuntime, rows: &[Row], answers: &[Answer<Movement>]) -> io::Result<()> {
    // a row without a step takes no answer, so that a `zip` would pair the rows behind it with others'
    let mut next = answers.iter();
    for row in rows {
        let text = row.text.as_str();
        match &row.step {
            Ok(_) => {
                if let Some(answer) = next.next() {
                    println!(rt; "{text}  -> {}", Shown(answer))?;
                }
            }
            Err(refusal) => println!(rt; "{text}  -> {refusal}")?,
        }
    }
    Ok(())
}

// Prints a line that has a combination written, and the combination.
fn print_writing(
    rt: &HostRuntime,
    writing: &Writing,
    state: &State,
    line: &[u8],
) -> io::Result<()> {
    let text = writing.text.as_str();
    let State::Shut(sheet) = state else {
        return println!(rt; "{text}  -> not let through");
    };
    let mut out = [0; LONGEST];
    match write_combination(sheet, line, writing.number, &mut out) {
        Ok(length) => {
            println!(rt; "{text}")?;
            rt.stdout().write_all(&out[..length])
        }
        Err(refusal) => println!(rt; "{text}  -> {refusal}"),
    }
}

/// Prints a played script.
pub(crate) fn print_played(
    rt: &HostRuntime,
    script: &Script,
    played: &Played<Movement>,
) -> io::Result<()> {
    print_rows(rt, &script.rows, &played.answers)?;
    let line = last_line(&played.answers);
    for writing in script.writings.iter() {
        print_writing(rt, writing, &played.state, line)?;
    }
    Ok(())
}
