// Makes a book of model texts, and writes it on standard output.
#![tactic(auto)]

mod input;

use anyhow::anyhow;
use book::MOST_BYTES;
use book::making::make;
use input::lines;
use std::env;
use std::io::{Read, Write};
use std::process::ExitCode;

const USAGE: &str =
    "usage: mkbook [TEXT]...   one text an argument, or without arguments one to a line on standard input";

/// Writes the book of the texts on standard output.
fn write_book(rt: &HostRuntime, texts: &[&[u8]]) -> anyhow::Result<()> {
    let mut out = [0; MOST_BYTES];
    let size = make(texts, &mut out)?;
    rt.stdout().write_all(&out[..size])?;
    Ok(())
}

fn run(rt: &HostRuntime) -> anyhow::Result<()> {
    let words: Vec<String> = env::args(rt)?.skip(1).collect(rt.alloc())?;
    if words.is_empty() {
        let mut input = Vec::new(rt.alloc());
        rt.stdin().read_to_end(&mut input)?;
        let texts = lines(rt.alloc(), &input)?;
        return write_book(rt, &texts);
    }
    let mut texts = Vec::new(rt.alloc());
    for word in &words {
        if word.as_str() == "--help" {
            println!(rt; "{USAGE}")?;
            return Ok(());
        }
        if word.starts_with('-') {
            return Err(anyhow!("{USAGE}"));
        }
        texts.push(word.as_bytes())?;
    }
    write_book(rt, &texts)
}

fn main(rt: HostRuntime) -> ExitCode {
    match run(&rt) {
        Ok(()) => ExitCode::SUCCESS,
        Err(error) => {
            let _ = eprintln!(rt; "mkbook: {error}");
            ExitCode::FAILURE
        }
    }
}
