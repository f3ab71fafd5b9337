// Tells of each model of a book whether it is included in the next one.
#![tactic(auto)]

use slip::slip_of;
use std::env;
use std::io::{Read, Write};
use std::process::ExitCode;

const USAGE: &str =
    "usage: compare < BOOK   tells of each model of a book whether it is included in the next one";

/// Writes what is printed for the book on standard input; a fault gives the status of a failure.
fn run(rt: &HostRuntime) -> anyhow::Result<ExitCode> {
    let mut input = Vec::new(rt.alloc());
    rt.stdin().read_to_end(&mut input)?;
    let slip = slip_of(rt.alloc(), &input)?;
    rt.stdout().write_all(&slip.text)?;
    Ok(if slip.whole {
        ExitCode::SUCCESS
    } else {
        ExitCode::FAILURE
    })
}

// These lines stand in each program that takes no argument: a crate for them would be no plainer.
fn main(rt: HostRuntime) -> anyhow::Result<ExitCode> {
    if env::args(&rt)?.count() > 1 {
        println!(rt; "{USAGE}")?;
        return Ok(ExitCode::FAILURE);
    }
    run(&rt)
}
