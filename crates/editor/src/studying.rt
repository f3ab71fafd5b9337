// A text as a model with its tables.
ghost use Rattle.std.specs.Prelude.{◌≡◌, ◌≤◌};

use faults::Fault;
use models::study;
use models::tables::Sets;
use symbols::name_rows::NameRow;
use text_reader::{MOST_CODES, MOST_NAMES, read};

/// What is kept of a text that gives a model: a row for each name, the followers of each, and the sets of the model.
#[derive(Clone, Copy)]
pub struct Studied {
    // `Studied` is Copy, which an ArrayVec is not; and its arrays are lent to the reader of text and to `study`, which write into lent lists.
    pub names: [NameRow; MOST_NAMES],
    /// How many cells of `names` are in use.
    pub count: usize,
    pub followers: [u64; MOST_NAMES],
    pub sets: Sets,
    ghost few: { count ≤ 64 },
}

impl Studied {
    ghost use Rattle.editor.specs.Tabled.{names_of, StudiedAs};

    /// Reads a text and studies its model.
    pub(crate) fn of(text: &[u8]) -> Result<Studied, Fault>
        ensures { StudiedAs text.now result }
    {
        let mut codes = [0; MOST_CODES];
        let mut names = [NameRow::default(); MOST_NAMES];
        let counts = read(text, &mut codes, &mut names)?;
        let used = counts.codes;
        let count = counts.names;
        let mut followers = [0; MOST_NAMES];
        let sets = study(&codes[..used], &names[..count], &mut followers)?;
        Ok(Studied {
            names,
            count,
            followers,
            sets,
        })
    }

    /// The names of the model.
    pub(crate) fn names(&self) -> &[NameRow]
        ensures { result.now ≡ names_of self.now }
    {
        &self.names[..self.count]
    }
}
