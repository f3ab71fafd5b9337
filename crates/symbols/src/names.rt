// Names: rows of names whose bytes follow the rule of names.
ghost use Rattle.std.specs.Prelude.{◌≡◌, MatchResult};
ghost use Rattle.std.proofs.Props.{props};
ghost use Rattle.symbols.specs.Rule.{IsName};
ghost use Rattle.symbols.specs.NameRows.{row_bytes, name_row};
ghost use Rattle.symbols.specs.Makings.{NotName};

use super::name_bytes::first_wrong;
use super::name_rows::NameRow;
use super::proper::{Proper, Row};
use faults::Fault;

/// A name: 1 to 32 bytes, first a letter, `_` or `:`, then these, digits, `.` and `-`.
pub type Name = Proper<NameRow>;

impl Row for NameRow {
    ghost proper = { λ r. IsName (row_bytes r) };

    ghost one_way = { λ r. Prim.hlevel props };
}

impl Proper<NameRow> {
    /// The name of these bytes. Over 32 of them give fault 3 at 0, else the first wrong byte gives 2 there, and no byte 2 at 0.
    pub fn new(text: &[u8]) -> Result<Name, Fault>
        ensures { MatchResult result (λ n. n.row ≡ name_row text.now) (λ e. NotName text.now e) }
    {
        if text.len() > 32 {
            return Err(Fault::LongName { at: 0 });
        }
        if text.is_empty() {
            return Err(Fault::Unexpected { at: 0 });
        }
        match first_wrong(text) {
            Some(at) => Err(Fault::Unexpected { at }),
            None => Ok(Proper {
                row: NameRow::of(text),
            }),
        }
    }
}
