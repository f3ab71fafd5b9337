// The reader of content models: from a text to its codes and names.
#![tactic(auto)]

ghost use Rattle.std.specs.Prelude.{◌≡◌, is_ok, Decides};
ghost use Rattle.text_reader.specs.Answer.{Answer, Readable, OneAnswer};

mod mixed;
mod output;
mod particles;
mod reader;
mod whole;

use faults::{Fault, Layer};
use output::Output;
use reader::Reader;
use symbols::name_rows::NameRow;

/// The cells that the list of codes must have: the most codes that a text can have.
pub const MOST_CODES: usize = 1280;

/// The cells that the list of names must have: the most names that a text may have.
pub const MOST_NAMES: usize = 64;

/// The most bytes that a text may have.
pub const MOST_TEXT: usize = 65535;

/// How many codes and names a text has.
#[derive(Clone, Copy, PartialEq, Eq, Debug, Drop)]
pub struct Counts {
    pub codes: usize,
    pub names: usize,
}

/// Reads a content model: its codes into the first cells of `codes`, its names into those of `names`. All other cells stay as
/// they were, and where the text is refused every cell does.
pub fn read(text: &[u8], codes: &mut [u8], names: &mut [NameRow]) -> Result<Counts, Fault>
    ensures answer { Answer text.now codes.old names.old result codes.new names.new }
    ensures exact { Decides (is_ok result) (Readable text.now codes.old names.old) }
{
    if codes.len() < MOST_CODES {
        return Err(Fault::ShortList {
            layer: Layer::Text,
            cells: MOST_CODES,
        });
    }
    if names.len() < MOST_NAMES {
        return Err(Fault::ShortList {
            layer: Layer::Text,
            cells: MOST_NAMES,
        });
    }
    if text.len() > MOST_TEXT {
        return Err(Fault::TooLarge {
            layer: Layer::Text,
            limit: MOST_TEXT,
        });
    }
    let mut reader = Reader {
        text,
        at: 0,
        out: Output::new(),
    };
    reader.read_whole()?;
    let out = &reader.out;
    let counts = Counts {
        codes: out.codes.len(),
        names: out.rows.len(),
    };
    codes[..counts.codes].copy_from_slice(&out.codes);
    names[..counts.names].copy_from_slice(&out.rows);
    Ok(counts)
}

/// A text and two lists have one answer, and one content of both lists afterwards.
pub fn one_answer()
    ensures { OneAnswer }
{}
