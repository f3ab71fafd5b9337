// What one body of a book means.
use crate::positions::Positions;
use faults::Fault;
use models::pairs::Pair;
use models::tables::Sets;
use models::{competing, sets};
use std::io;
use std::io::Write;
use symbols::name_rows::NameRow;
use text_reader::{MOST_CODES, MOST_NAMES, read};
use text_writer::write;

/// Room for any text of the writer, which has at most 5,890 bytes.
pub(crate) const MOST_TEXT: usize = 8192;

/// The lists that a model is read into, one model after the other.
#[derive(Drop)]
pub(crate) struct Lists<'a> {
    pub(crate) text: &'a mut [u8; MOST_TEXT],
    pub(crate) codes: &'a mut [u8; MOST_CODES],
    pub(crate) names: &'a mut [NameRow; MOST_NAMES],
    pub(crate) followers: &'a mut [u64; MOST_NAMES],
}

/// A model: its text as the writer gives it, its codes and names, the followers of each position, its sets, and its competing pair.
// Its lists are lent: with an `ArrayVec` for each, which is cleared and moved for each body, small models took up to 2.5 times as long.
#[derive(Clone, Copy)]
pub(crate) struct Explanation<'a> {
    text: &'a [u8],
    codes: &'a [u8],
    names: &'a [NameRow],
    followers: &'a [u64],
    sets: Sets,
    competing: Option<Pair>,
}

impl<'a> Explanation<'a> {
    /// What the text of a body means, or why it is refused.
    pub(crate) fn of(body: &[u8], lists: Lists<'a>) -> Result<Explanation<'a>, Fault> {
        let Lists {
            text,
            codes,
            names,
            followers,
        } = lists;
        let counts = read(body, codes, names)?;
        let codes = &codes[..counts.codes];
        let names = &names[..counts.names];
        let size = write(codes, names, text)?;
        let sets = sets(codes, names.len(), followers)?;
        Ok(Explanation {
            text: &text[..size],
            codes,
            names,
            followers: &followers[..names.len()],
            sets,
            competing: competing(codes, names)?,
        })
    }

    /// Writes the lines that tell it.
    pub(crate) fn write_to(&self, out: &mut impl Write) -> io::Result<()> {
        out.write_all(self.text)?;
        self.write_parts(out)?;
        self.write_sets(out)?;
        match self.competing {
            Some(Pair { first, second }) => writeln!(out, "  competing: {first} and {second}"),
            None => writeln!(out, "  competing: none"),
        }
    }

    fn write_parts(&self, out: &mut impl Write) -> io::Result<()> {
        write!(out, "\n  codes:")?;
        for code in self.codes.iter() {
            write!(out, " {code}")?;
        }
        write!(out, "\n  names:")?;
        for name in self.names.iter() {
            out.write_all(b" ")?;
            out.write_all(name.text())?;
        }
        writeln!(out)
    }

    fn write_sets(&self, out: &mut impl Write) -> io::Result<()> {
        let empty = if self.sets.nullable { "yes" } else { "no" };
        writeln!(out, "  may be empty: {empty}")?;
        writeln!(out, "  may begin:{}", Positions(self.sets.first))?;
        writeln!(out, "  may end:{}", Positions(self.sets.last))?;
        for (at, row) in self.followers.iter().enumerate() {
            writeln!(out, "  after {}:{}", at.saturating_add(1), Positions(*row))?;
        }
        Ok(())
    }
}
