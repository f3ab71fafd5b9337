// Runs a script of cues on a shelf, and tells what became of each of its lines.
#![tactic(auto)]

mod answering;
mod bench;
mod commands;

use answering::answer;
use bench::Bench;
use std::alloc::AllocError;
use std::env;
use std::io::Write;
use std::process::ExitCode;

const USAGE: &str =
    "usage: script < SCRIPT   runs a script of load, withdraw, try and compare, one to a line";

fn run(rt: &HostRuntime) -> anyhow::Result<()> {
    let mut bench = Bench::new(rt.alloc())?;
    for (k, line) in rt.lines(rt.alloc()).enumerate() {
        let mut told = Vec::new(rt.alloc());
        // A vector refuses bytes only where memory runs out, which is said in the words of the allocator.
        answer(
            rt.alloc(),
            &mut bench,
            &mut told,
            k.saturating_add(1),
            &line?,
        )
        .map_err(|_| AllocError)?;
        rt.stdout().write_all(&told)?;
    }
    Ok(())
}

// These lines stand in each program that takes no argument: a crate for them would be no plainer.
fn main(rt: HostRuntime) -> anyhow::Result<ExitCode> {
    if env::args(&rt)?.count() > 1 {
        println!(rt; "{USAGE}")?;
        return Ok(ExitCode::FAILURE);
    }
    run(&rt)?;
    Ok(ExitCode::SUCCESS)
}
