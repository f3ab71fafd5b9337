// Rows of cues: cues as lists hold them.
ghost use Rattle.std.specs.Prelude.{◌≡◌, ◌<◌};
ghost use Rattle.symbols.specs.CueRows.{cue_same, cue_foreign, cue_laws, cue_written, cue_sized, hex_digit};

use super::forms::{Form, padded};
use super::{Printable, Symbol};

/// A cue as plain data: any two bytes, a status and a first data byte.
#[derive(Clone, Copy, Default, PartialEq, Eq, Debug)]
#[repr(C)]
pub struct CueRow {
    pub status: u8,
    pub datum: u8,
}

impl Symbol for CueRow {
    ghost same = { cue_same };

    ghost foreign = { cue_foreign };

    ghost laws = { cue_laws };

    fn same(&self, other: &CueRow) -> bool {
        self.status / 16 == other.status / 16 && self.datum == other.datum
    }

    fn foreign(&self) -> bool {
        self.status / 16 == 11 && (102..=119).contains(&self.datum)
    }
}

/// A lower-case hexadecimal digit.
// By hand, since `char::from_digit` answers an `Option<char>`, of which one would have to prove that it is a character of one byte.
fn hex(n: u8) -> u8
    requires { n < 16 }
    ensures { result ≡ hex_digit n }
{
    if n < 10 { b'0' + n } else { b'a' + (n - 10) }
}

impl Printable for CueRow {
    ghost written = { cue_written };

    ghost sized = { cue_sized };

    fn written(&self) -> Form {
        let text = [
            hex(self.status / 16),
            hex(self.status % 16),
            b'.',
            hex(self.datum / 16),
            hex(self.datum % 16),
        ];
        Form {
            bytes: padded(&text),
            len: text.len(),
        }
    }
}
