// A shelf for the models of a book, with the lists that its calls need.
use shelf::{CELLS, MOST_PAIRS, PLACES, Shelf};
use symbols::name_rows::NameRow;

/// The cells of all places.
pub(crate) const ALL: usize = PLACES * CELLS;

/// The cells of work that the most pairs need.
pub(crate) const WORK: usize = 2 * MOST_PAIRS;

/// A shelf of names and its lists, long enough for every place and every comparison.
// Arrays, and no list on a heap, since a library takes memory only for what is printed.
#[derive(Drop)]
pub(crate) struct Desk {
    pub(crate) shelf: Shelf,
    pub(crate) symbols: [NameRow; ALL],
    pub(crate) numbers: [u64; ALL],
    pub(crate) work: [u32; WORK],
    pub(crate) word: [u16; MOST_PAIRS],
}
