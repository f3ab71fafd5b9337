// What was read so far: codes and names, in lists of the reader's own.
ghost use Rattle.std.specs.Prelude.{◌≡◌, ◌<◌, ◌≤◌, [], ◌∷◌, length, OnOk, OnErr};
ghost use Rattle.codes.specs.Code.{code_number};
ghost use Rattle.text_reader.specs.Output.{names_in, Holds, Grew};

use super::{MOST_CODES, MOST_NAMES};
use arrayvec::{ArrayVec, CapacityError};
use codes::Code;
use symbols::name_rows::NameRow;

/// The codes and the names that were read so far. Codes past the last cell are not kept: no text within the limits has any.
#[derive(Drop)]
pub struct Output {
    pub codes: ArrayVec<u8, MOST_CODES>,
    pub rows: ArrayVec<NameRow, MOST_NAMES>,
}

impl Output {
    /// No code and no name.
    pub(crate) fn new() -> Output
        ensures { Holds result [] [] }
    {
        Output {
            codes: ArrayVec::new(),
            rows: ArrayVec::new(),
        }
    }

    /// Keeps one more code, where a cell is left.
    pub(crate) fn push(&mut self, code: Code)
        ensures { Grew self.old self.new (code_number code ∷ []) [] }
    {
        let _ = self.codes.try_push(code.into());
    }

    /// Keeps one more name, where a cell is left.
    pub(crate) fn push_name(&mut self, name: &[u8]) -> Result<(), CapacityError<NameRow>>
        requires { length name.now ≤ 32 }
        ensures ok { OnOk result (Grew self.old self.new [] (name.now ∷ [])) }
        ensures room { OnOk result (names_in self.old < 64) }
        ensures full { OnErr result (64 ≤ names_in self.old) }
    {
        self.rows.try_push(NameRow::of(name))
    }
}
