// The commands of a script, as they are written.
use std::alloc::{AllocError, Global};
use std::fmt;
use std::num::ParseIntError;
use std::str::{FromStr, SplitAsciiWhitespace};
use symbols::cue_rows::CueRow;
use thiserror::Error;

/// What a line asks for.
#[derive(Drop)]
pub(crate) enum Command {
    /// `load 0 1,1,4,2 90.3c 80.3c`: loads the model of these codes and cues into place 0.
    Load {
        place: usize,
        codes: Vec<u8>,
        cues: Vec<CueRow>,
    },
    /// `withdraw 0`: withdraws what place 0 holds.
    Withdraw {
        place: usize,
    },
    /// `try 0 90.3c 80.3c`: tries the word of these cues on what place 0 holds.
    Try {
        place: usize,
        cues: Vec<CueRow>,
    },
    /// `compare 0 1`: compares what place 0 holds with the reader of place 1.
    Compare {
        place: usize,
        other: usize,
    },
}

/// Why a line gives no command.
#[derive(Debug, Drop, Error)]
pub(crate) enum Unread {
    #[error("not a command")]
    NotCommand,
    #[error(transparent)]
    Memory(#[from(alloc)] AllocError),
}

/// The number of these decimal digits; a sign is none.
fn number<N: FromStr<Err = ParseIntError>>(digits: &str) -> Result<N, Unread> {
    if digits.starts_with('+') {
        return Err(Unread::NotCommand);
    }
    digits.parse().map_err(|_| Unread::NotCommand)
}

/// The byte of two hexadecimal digits.
fn byte(high: u8, low: u8) -> Option<u8> {
    let high = char::from(high).to_digit(16)?;
    let low = char::from(low).to_digit(16)?;
    Some((16 * high + low) as u8)
}

/// The cue of two such bytes with a point between.
// By its five bytes: a search for the point and a number of any length took half as long again.
fn cue(word: &str) -> Result<CueRow, Unread> {
    let [a, b, b'.', c, d] = word.as_bytes() else {
        return Err(Unread::NotCommand);
    };
    let status = byte(*a, *b).ok_or(Unread::NotCommand)?;
    let datum = byte(*c, *d).ok_or(Unread::NotCommand)?;
    Ok(CueRow { status, datum })
}

/// The next word of a line.
fn next<'a>(words: &mut SplitAsciiWhitespace<'a>) -> Result<&'a str, Unread> {
    words.next().ok_or(Unread::NotCommand)
}

/// Refuses a line that has more words.
fn end(words: &mut SplitAsciiWhitespace) -> Result<(), Unread> {
    match words.next() {
        None => Ok(()),
        Some(_) => Err(Unread::NotCommand),
    }
}

/// The cues of the words that are left.
fn cues(heap: Global, words: SplitAsciiWhitespace) -> Result<Vec<CueRow>, Unread> {
    words.map(|word| cue(word)).try_collect(heap)
}

/// The codes of a word, with commas between.
fn codes(heap: Global, word: &str) -> Result<Vec<u8>, Unread> {
    word.split(',').map(|code| number(code)).try_collect(heap)
}

impl Command {
    /// The command of a line.
    // Words are taken one by one: a list of all of them would need more memory than the line.
    pub(crate) fn read(heap: Global, line: &str) -> Result<Command, Unread> {
        let mut words = line.split_ascii_whitespace();
        match next(&mut words)? {
            "load" => Ok(Command::Load {
                place: number(next(&mut words)?)?,
                codes: codes(heap, next(&mut words)?)?,
                cues: cues(heap, words)?,
            }),
            "withdraw" => {
                let place = number(next(&mut words)?)?;
                end(&mut words)?;
                Ok(Command::Withdraw { place })
            }
            "try" => Ok(Command::Try {
                place: number(next(&mut words)?)?,
                cues: cues(heap, words)?,
            }),
            "compare" => {
                let place = number(next(&mut words)?)?;
                let other = number(next(&mut words)?)?;
                end(&mut words)?;
                Ok(Command::Compare { place, other })
            }
            _ => Err(Unread::NotCommand),
        }
    }

    /// The place that the command is about.
    pub(crate) fn place(&self) -> usize {
        match self {
            Command::Load { place, .. }
            | Command::Withdraw { place }
            | Command::Try { place, .. }
            | Command::Compare { place, .. } => *place,
        }
    }
}

impl fmt::Display for Command {
    fn fmt<W: fmt::Write>(&self, f: &mut fmt::Formatter<W>) -> fmt::Result {
        match self {
            Command::Load { place, .. } => write!(f, "load {place}"),
            Command::Withdraw { place } => write!(f, "withdraw {place}"),
            Command::Try { place, .. } => write!(f, "try {place}"),
            Command::Compare { place, other } => write!(f, "compare {place} in {other}"),
        }
    }
}
