// What is done for a line, and told of it.
use crate::bench::{Bench, Stop};
use crate::commands::{Command, Unread};
use comparison::Answer;
use std::alloc::Global;
use std::io;
use std::io::Write;
use symbols::Printable;

/// Whether a line is blank or begins with `#`, so that it asks for nothing.
fn is_remark(line: &str) -> bool {
    let line = line.trim_ascii_start();
    line.is_empty() || line.starts_with('#')
}

/// Tells the word of a place that a comparison has missed.
fn tell_missed(bench: &Bench, out: &mut impl Write, place: usize, length: usize) -> io::Result<()> {
    write!(out, "not, {length} symbols:")?;
    for position in bench.positions().iter().take(length) {
        if let Some(cue) = bench.symbol(place, *position) {
            out.write_all(b" ")?;
            out.write_all(cue.written().text())?;
        }
    }
    writeln!(out)
}

/// Does what a command asks for.
fn perform(bench: &mut Bench, command: &Command) -> Result<Answer, Stop> {
    match command {
        Command::Load { place, codes, cues } => Ok(bench.load(*place, codes, cues)?),
        Command::Withdraw { place } => Ok(bench.withdraw(*place)?),
        Command::Try { place, cues } => Ok(bench.trial(*place, cues)?),
        Command::Compare { place, other } => bench.compare(*place, *other),
    }
}

/// Tells the answer to a command on a place.
fn tell(bench: &Bench, out: &mut impl Write, place: usize, answer: Answer) -> io::Result<()> {
    match answer {
        Answer::Done => writeln!(out, "done"),
        Answer::Yes => writeln!(out, "yes"),
        Answer::No { longest } => writeln!(out, "no, {longest}"),
        Answer::Included => writeln!(out, "included"),
        Answer::Missed { length } => tell_missed(bench, out, place, length),
    }
}

/// Answers one line: nothing to a remark, and one line to any other.
pub(crate) fn answer(
    heap: Global,
    bench: &mut Bench,
    out: &mut impl Write,
    number: usize,
    line: &str,
) -> io::Result<()> {
    if is_remark(line) {
        return Ok(());
    }
    let command = match Command::read(heap, line) {
        Ok(command) => command,
        Err(Unread::Memory(error)) => return Err(error.into()),
        Err(unread) => return writeln!(out, "line {number}: {unread}"),
    };
    write!(out, "{command}: ")?;
    match perform(bench, &command) {
        Ok(answer) => tell(bench, out, command.place(), answer),
        Err(Stop::Refused(fault)) => writeln!(out, "{fault}"),
        Err(Stop::Memory(error)) => Err(error.into()),
    }
}
