// Plays a script of calls: reads it from standard input, makes its calls, and prints each line with its answer.
#![tactic(auto)]

mod playing;
mod printing;
mod reading;

use playing::play;
use printing::print_played;
use reading::read_script;
use script::gathering::Script;

// Reads the script, plays it and prints it; or says at which line it is not read.
fn run(rt: &HostRuntime) -> anyhow::Result<()> {
    let mut script = Script::empty(rt.alloc());
    if let Err(halt) = read_script(rt, &mut script) {
        println!(rt; "line {}: {}", halt.number, halt.fault)?;
        return Ok(());
    }
    let played = play(rt.alloc(), &script)?;
    print_played(rt, &script, &played)?;
    Ok(())
}

fn main(rt: HostRuntime) -> anyhow::Result<()> {
    run(&rt)
}
