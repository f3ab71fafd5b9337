// A shelf of sixteen places for models, whose symbols and followers stand in lists that are lent to each call.
#![tactic(auto)]

pub mod laws;
mod place_readers;
mod records;
mod shelves;

pub use place_readers::PlaceReader;
pub use records::Summary;
pub use shelves::{CELLS, MOST_PAIRS, PLACES, Shelf};
