// Rows of names: names as lists hold them.
ghost use Rattle.std.specs.Prelude.{◌≡◌, ◌≤◌, length, take, Decides};
ghost use Rattle.symbols.specs.Rule.{IsName};
ghost use Rattle.symbols.specs.NameRows.{width, row_bytes, name_row, name_same, name_foreign, name_laws, name_sized};

use super::forms::{Form, padded};
use super::name_bytes::first_wrong;
use super::{Printable, Symbol};

/// A name as plain data: 32 bytes, and a length that counts as the nearest of 1 to 32.
// Lists of rows are lent by C code, in this layout and with any length.
#[derive(Clone, Copy, Default, PartialEq, Eq, Debug)]
#[repr(C)]
pub struct NameRow {
    pub bytes: [u8; 32],
    pub len: u8,
}

impl NameRow {
    /// The row of these bytes, of which only the first 32 count: the bytes, then zeros.
    pub fn of(text: &[u8]) -> NameRow
        ensures { result ≡ name_row (take 32 text.now) }
    {
        let counted = &text[..text.len().min(32)];
        NameRow {
            bytes: padded(counted),
            len: counted.len() as u8,
        }
    }

    /// How many bytes count.
    pub fn width(&self) -> usize
        ensures { result ≡ width self.now.len }
    {
        // Not `clamp`, which compiles to branches: this stands in each comparison of two names.
        self.len.min(32).max(1) as usize
    }

    /// The bytes that count.
    pub fn text(&self) -> &[u8]
        ensures { result.now ≡ row_bytes self.now }
    {
        &self.bytes[..self.width()]
    }

    /// Whether the bytes that count are a name.
    pub fn is_name(&self) -> bool
        ensures { Decides result (IsName (row_bytes self.now)) }
    {
        first_wrong(self.text()).is_none()
    }
}

impl Symbol for NameRow {
    ghost same = { name_same };

    ghost foreign = { name_foreign };

    ghost laws = { name_laws };

    fn same(&self, other: &NameRow) -> bool {
        self.text() == other.text()
    }

    fn foreign(&self) -> bool {
        self.text().starts_with(b"x-")
    }
}

impl Printable for NameRow {
    ghost written = { row_bytes };

    ghost sized = { name_sized };

    fn written(&self) -> Form {
        Form {
            bytes: self.bytes,
            len: self.width(),
        }
    }
}
