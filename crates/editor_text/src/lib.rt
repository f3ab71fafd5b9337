// The reader and the writer of content models, for a program in C to link: no shelf is needed.
#![tactic(auto)]

ghost use Rattle.std.specs.Prelude.{◌≡◌};
ghost use Rattle.faults.specs.Card.{number};
ghost use Rattle.editor_text.specs.Calls.{both, names_of, ReadCall, WriteCall, OneRead, OneWrite};

use faults::{Fault, Values};
use symbols::name_rows::NameRow;
use text_reader::read;
use text_writer::write;

/// What a call tells beside its number: the counts or the length where it is done, and otherwise what the fault names.
// Two numbers, since C reads them.
#[derive(Clone, Copy)]
#[repr(C)]
pub struct Told {
    pub first: usize,
    pub second: usize,
}

impl From<Values> for Told {
    ghost from_gives = { λ values told. told ≡ both values };

    /// Where there is one value, the second is 0.
    fn from(values: Values) -> Told {
        match values {
            Values::One(first) => Told { first, second: 0 },
            Values::Two(first, second) => Told { first, second },
        }
    }
}

/// The number of a fault. What the fault names is told.
// The number itself, since C reads it.
fn refuse(fault: Fault, told: &mut Told) -> u8
    ensures number { result ≡ number fault }
    ensures names { told.new ≡ names_of fault }
{
    *told = fault.values().into();
    fault.number()
}

/// Reads a content model: 0, and how many codes and names it has; or the number of the fault, and what it names. The codes and
/// names stand first in their lists, all other cells stay as they were, and where the text is refused every cell does.
#[unsafe(no_mangle)]
pub extern "C" fn fomurindu_read(
    text: &[u8],
    codes: &mut [u8],
    names: &mut [NameRow],
    told: &mut Told,
) -> u8
    ensures { ReadCall text.now codes.old names.old result told.new codes.new names.new }
{
    match read(text, codes, names) {
        Ok(counts) => {
            *told = Told {
                first: counts.codes,
                second: counts.names,
            };
            0
        }
        Err(fault) => refuse(fault, told),
    }
}

/// Writes the text of a model: 0, and how many bytes the text has; or the number of the fault, and what it names. The text stands
/// first in its list, all other cells stay as they were, and where the model is refused every cell does.
#[unsafe(no_mangle)]
pub extern "C" fn fomurindu_write(
    codes: &[u8],
    names: &[NameRow],
    text: &mut [u8],
    told: &mut Told,
) -> u8
    ensures { WriteCall codes.now names.now text.old result told.new text.new }
{
    match write(codes, names, text) {
        Ok(length) => {
            *told = Told {
                first: length,
                second: 0,
            };
            0
        }
        Err(fault) => refuse(fault, told),
    }
}

/// Each call has one number, tells one thing, and leaves one content of its lists.
pub fn one_answer()
    ensures { (OneRead) × (OneWrite) }
{}
