// The line of two places, behind a text.
ghost use Rattle.std.specs.Prelude.{◌≡◌, ◌<◌, ◌≤◌, ◌++◌, length, is_ok, if◌then◌else◌, OnOk};
ghost use Rattle.symbols.specs.NameRows.{row_bytes};
ghost use Rattle.language.specs.Meaning.{spelled};
ghost use Rattle.book.specs.Line.{line_of, symbols_shown, Places};
ghost use Rattle.slip.specs.Desks.{Both, Has, InRange, Models, Short, Told};

use crate::desks::Desk;
use arrayvec::ArrayVec;
use book::lines::{MOST_SHOWN, MOST_TEXT, line, shown_symbols};
use std::alloc::AllocError;
use symbols::name_rows::NameRow;

/// The symbols of the positions of a word.
fn spell(symbols: &[NameRow], word: &[u16]) -> ArrayVec<NameRow, MOST_SHOWN>
    requires within { InRange (length symbols.now) word.now }
    requires few { length word.now ≤ 8 }
    ensures symbols { result.items ≡ spelled symbols.now word.now }
    ensures count { length result.items ≡ length word.now }
{
    let mut rows = ArrayVec::new();
    for position in word {
        rows.push(symbols[usize::from(*position) - 1]);
    }
    rows
}

/// Puts the line of two places, a verdict and the first symbols of its word behind a text.
fn push_line(
    first: usize,
    second: usize,
    missed: Option<usize>,
    symbols: &[NameRow],
    text: &mut Vec<u8>,
) -> Result<(), AllocError>
    requires places { Places first second }
    requires short { Short missed }
    requires enough { symbols_shown missed ≤ length symbols.now }
    ensures { text.new.items ≡ (if is_ok result then text.old.items ++ line_of row_bytes first second missed symbols.now else text.old.items) }
{
    // An array, since it is lent to `line`, which tells how many cells of it it wrote.
    let mut cells = [0; MOST_TEXT];
    let size = line(first, second, missed, symbols, &mut cells).unwrap();
    text.extend_from_slice(&cells[..size])
}

impl Desk {
    /// Puts the line that tells what the model of a place is to that of another behind a text.
    pub(crate) fn tell(
        &mut self,
        first: usize,
        second: usize,
        text: &mut Vec<u8>,
    ) -> Result<(), AllocError>
        requires { Both self.old first second }
        ensures { (ms : Models) → Has self.old ms → first < length ms → second < length ms → Has self.new ms × OnOk result (Told ms first second text.old.items text.new.items) }
    {
        let missed = self.compare(first, second);
        let model = self.shelf.reader(&self.symbols, &self.numbers, first);
        let word = &self.word[..shown_symbols(missed)];
        push_line(
            first,
            second,
            missed,
            &spell(model.automaton.symbols, word),
            text,
        )
    }
}
