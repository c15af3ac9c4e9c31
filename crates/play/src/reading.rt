// Reading a script from standard input, and the pages that it names. Knows nothing of answers.
ghost use Rattle.std.specs.Prelude.{◌<◌, ◌≤◌, IfErr};

use script::fault::Fault;
use script::gathering::Script;
use script::parsing::line_says;
use script::statement::Statement;
use script::step::Step;
use std::fs::File;
use std::io::{BufRead, BufReader, Read};

/// How much of the standard input is read, so that there are at most as many lines.
const SCRIPT: u64 = 65_536;

/// How much of a file is read, more than the longest page.
const PAGE: u64 = 4096;

/// The first line that is not taken, counted from 1, and why.
#[derive(Drop)]
pub struct Halt {
    pub number: u64,
    pub fault: Fault,
}

// The content of a file.
fn page(rt: &HostRuntime, file: &str) -> Result<Vec<u8>, Fault> {
    let mut page = Vec::new(rt.alloc());
    let input = File::open(rt, file).map_err(|_| Fault::Unreadable)?;
    input
        .take(PAGE)
        .read_to_end(&mut page)
        .map_err(|_| Fault::Unreadable)?;
    Ok(page)
}

// Takes a line into the script.
fn take_line(rt: &HostRuntime, script: &mut Script, text: String) -> Result<(), Fault> {
    let Some(said) = line_says(rt.alloc(), text.as_str())? else {
        return Ok(());
    };
    let step = match said {
        Statement::Load { file } => Ok(Step::Load {
            page: page(rt, file.as_str())?,
        }),
        Statement::Change(call) => Ok(Step::Other(call)),
        Statement::Ask(question) => script.ask(question)?,
        Statement::Write { number } => return script.add_writing(text, number),
    };
    script.add_row(text, step)
}

/// Reads the script, up to the first line that is not taken.
pub(crate) fn read_script(rt: &HostRuntime, script: &mut Script) -> Result<(), Halt>
    ensures { IfErr result (λ halt. (0 < halt.number) × (halt.number ≤ 65536)) }
{
    let input = BufReader::new(rt.alloc(), rt.stdin().take(SCRIPT)).map_err(|_| Halt {
        number: 1,
        fault: Fault::Memory,
    })?;
    for (number, line) in (1..=SCRIPT).zip(input.lines(rt.alloc())) {
        let taken = match line {
            Ok(text) => take_line(rt, script, text),
            Err(_) => Err(Fault::NotACall),
        };
        if let Err(fault) = taken {
            return Err(Halt { number, fault });
        }
    }
    Ok(())
}
