// Explains the models of a book, a body at a time: what each means, and its text as the writer gives it.
#![tactic(auto)]

mod explain;
mod positions;

use book::reading::Book;
use explain::{Explanation, Lists, MOST_TEXT};
use faults::Numbered;
use std::alloc::AllocError;
use std::io::{Read, Write};
use std::process::ExitCode;
use std::{env, io};
use symbols::name_rows::NameRow;
use text_reader::{MOST_CODES, MOST_NAMES};

const USAGE: &str =
    "usage: inspect < BOOK   explains each model of a book that is read from standard input";

// The texts of a refusal are those that slip prints, on which this program does not stand.
/// Writes what each body of a book means up to the first fault, which ends the report and gives the status of a failure.
fn report(out: &mut impl Write, bytes: &[u8]) -> io::Result<ExitCode> {
    let book = match Book::read(bytes) {
        Ok(book) => book,
        Err(fault) => {
            writeln!(out, "book: {}", Numbered(fault))?;
            return Ok(ExitCode::FAILURE);
        }
    };
    let mut text = [0; MOST_TEXT];
    let mut codes = [0; MOST_CODES];
    let mut names = [NameRow::default(); MOST_NAMES];
    let mut followers = [0; MOST_NAMES];
    for (k, body) in (0..book.count()).map_while(|k| book.body(k)).enumerate() {
        let lists = Lists {
            text: &mut text,
            codes: &mut codes,
            names: &mut names,
            followers: &mut followers,
        };
        match Explanation::of(body, lists) {
            Ok(explanation) => {
                write!(out, "body {k}: ")?;
                explanation.write_to(out)?;
            }
            Err(fault) => {
                writeln!(out, "body {k}: {fault}")?;
                return Ok(ExitCode::FAILURE);
            }
        }
    }
    Ok(ExitCode::SUCCESS)
}

fn run(rt: &HostRuntime) -> anyhow::Result<ExitCode> {
    let mut input = Vec::new(rt.alloc());
    rt.stdin().read_to_end(&mut input)?;
    let mut out = Vec::new(rt.alloc());
    // A vector refuses bytes only where memory runs out, which is said in the words of the allocator.
    let status = report(&mut out, &input).map_err(|_| AllocError)?;
    rt.stdout().write_all(&out)?;
    Ok(status)
}

// These lines stand in each program that takes no argument: a crate for them would be no plainer.
fn main(rt: HostRuntime) -> anyhow::Result<ExitCode> {
    if env::args(&rt)?.count() > 1 {
        println!(rt; "{USAGE}")?;
        return Ok(ExitCode::FAILURE);
    }
    run(&rt)
}
