// Reads a theme page from standard input and writes it back, or says why it is refused.
#![tactic(auto)]

use std::io::{Read, Write};
use theme::theme::{MOST_PLACES, Theme};

/// How much of the standard input is read, more than the longest page.
const PAGE: u64 = 4096;

/// The longest page: a head of 9 bytes, and 11 for each place.
const LONGEST: usize = 9 + 11 * MOST_PLACES;

fn run(rt: &HostRuntime) -> anyhow::Result<()> {
    let mut page = Vec::new(rt.alloc());
    rt.stdin().take(PAGE).read_to_end(&mut page)?;
    let mut theme = Theme::blank(rt.alloc())?;
    if let Err(refusal) = theme.read(&page) {
        println!(rt; "refused{:>4}", u32::from(refusal))?;
        return Ok(());
    }
    // the writer fills a lent buffer and answers how much of it
    let mut out = [0; LONGEST];
    let length = theme.write(&mut out)?;
    rt.stdout().write_all(&out[..length])?;
    Ok(())
}

fn main(rt: HostRuntime) -> anyhow::Result<()> {
    run(&rt)
}
