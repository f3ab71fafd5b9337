// A shelf and the lists that are lent to it, with calls held to what was worked out.
use super::rows::{Row, spelled};
use comparison::compare;
use faults::Fault;
use models::trials::Trial;
use readers::Reader;
use shelf::{PlaceReader, Shelf};
use std::alloc::{AllocError, Global};
use std::process::Abort;
use std::test::*;
use symbols::Symbol;

/// How many cells both lists have.
const ALL: usize = 1024;

/// What each number holds before a load.
const NUMBER: u64 = 999;

/// What each cell of a word list holds before a comparison.
const MARK: u16 = 7777;

/// What each cell of a work list holds before a comparison.
const WORK: u32 = 5;

/// Whether two lists have the same cells, but for those from `from` up to `to`.
fn kept_beside<T: PartialEq>(before: &[T], after: &[T], from: usize, to: usize) -> bool {
    before.len() == after.len()
        && before
            .iter()
            .zip(after)
            .enumerate()
            .all(|(i, (old, new))| (from..to).contains(&i) || old == new)
}

/// Whether these cells stand in the list from `from` on.
fn stand<T: PartialEq>(list: &[T], from: usize, cells: &[T]) -> bool {
    list.get(from..).is_some_and(|rest| rest.starts_with(cells))
}

/// Writes an item into each cell of place 1.
fn overwrite<T: Copy>(list: &mut [T], item: T) {
    // Cell by cell, since `fill` asks that a copy can't fail, which is not known of every `T`.
    for cell in list.iter_mut().take(128).skip(64) {
        *cell = item;
    }
}

/// Whether all cells of a work list are as they were.
fn work_kept(work: &[u32]) -> bool {
    work.iter().all(|&cell| cell == WORK)
}

/// Whether all cells of a word list from `from` on are as they were.
fn behind_kept(word: &[u16], from: usize) -> bool {
    word.iter().skip(from).all(|&cell| cell == MARK)
}

/// Whether the positions are the first cells of a word list, and all others are as they were.
fn told(word: &[u16], positions: &[u16]) -> bool {
    word.starts_with(positions) && behind_kept(word, positions.len())
}

/// What the lists of symbols and numbers hold.
#[derive(Drop)]
pub struct Lists<S> {
    symbols: Vec<S>,
    numbers: Vec<u64>,
}

/// A shelf and its lists.
#[derive(Drop)]
pub struct Desk<S> {
    shelf: Shelf,
    symbols: Vec<S>,
    numbers: Vec<u64>,
    heap: Global,
}

/// A new shelf, over lists that hold what no load writes.
pub fn new_desk<S: Row>(heap: Global) -> Result<Desk<S>, AllocError> {
    Ok(Desk {
        shelf: Shelf::new(),
        symbols: vec![in heap; S::letter(b'z'); ALL]?,
        numbers: vec![in heap; NUMBER; ALL]?,
        heap,
    })
}

impl<S: Row> Desk<S> {
    /// Loads the model of these codes and letters.
    // A result within a result: a test compares the fault, and running out of memory ends it.
    fn load(
        &mut self,
        place: usize,
        codes: &[u8],
        letters: &[u8],
    ) -> Result<Result<(), Fault>, AllocError> {
        let model = spelled::<S>(self.heap, letters)?;
        Ok(
            self.shelf
                .load(&mut self.symbols, &mut self.numbers, place, codes, &model),
        )
    }

    /// Withdraws what a place holds.
    pub fn withdraw(&mut self, place: usize) -> Result<(), Fault> {
        self.shelf.withdraw(&self.symbols, &self.numbers, place)
    }

    /// Tries a word.
    // A result within a result: a test compares the fault, and running out of memory ends it.
    pub fn trial(&self, place: usize, letters: &[u8]) -> Result<Result<Trial, Fault>, AllocError> {
        let word = spelled::<S>(self.heap, letters)?;
        Ok(self.shelf.trial(&self.symbols, &self.numbers, place, &word))
    }

    /// The reader of a place.
    pub fn reader<'a>(&'a self, place: usize) -> PlaceReader<'a, 'a, S> {
        self.shelf.reader(&self.symbols, &self.numbers, place)
    }

    /// What the lists hold now.
    pub fn lists(&self) -> Result<Lists<S>, AllocError> {
        Ok(Lists {
            symbols: self.symbols.iter().copied().collect(self.heap)?,
            numbers: self.numbers.iter().copied().collect(self.heap)?,
        })
    }

    /// Whether both lists are as they were, but for the cells from `from` up to `to`.
    fn kept_beside(&self, before: &Lists<S>, from: usize, to: usize) -> bool {
        kept_beside(&before.symbols, &self.symbols, from, to)
            && kept_beside(&before.numbers, &self.numbers, from, to)
    }

    /// Whether both lists are as they were.
    pub fn kept(&self, before: &Lists<S>) -> bool {
        self.kept_beside(before, 0, 0)
    }

    /// Overwrites the cells of place 1 with a letter and a number.
    pub fn spoil(&mut self, letter: u8, number: u64) {
        overwrite(&mut self.symbols, S::letter(letter));
        overwrite(&mut self.numbers, number);
    }

    /// Loads a model, which must be done.
    pub fn holds(
        &mut self,
        rt: &impl Abort,
        place: usize,
        codes: &[u8],
        letters: &[u8],
    ) -> Result<(), Fail> {
        assert_eq!(rt; self.load(place, codes, letters)?, Ok(()));
        Ok(())
    }

    /// Loads a model, which must be done: its symbols and the followers of its positions go first in the place's cells, and no other
    /// cell changes.
    pub fn loads(
        &mut self,
        rt: &impl Abort,
        place: usize,
        codes: &[u8],
        letters: &[u8],
        followers: &[u64],
    ) -> Result<(), Fail> {
        let before = self.lists()?;
        self.holds(rt, place, codes, letters)?;
        assert!(rt; place < 16);
        assert!(rt; letters.len() <= 64);
        assert!(rt; followers.len() == letters.len());
        let from = place * 64;
        assert!(rt; stand(&self.symbols, from, &spelled::<S>(self.heap, letters)?));
        assert!(rt; stand(&self.numbers, from, followers));
        assert!(rt; self.kept_beside(&before, from, from + letters.len()));
        Ok(())
    }

    /// Loads a model, which must be refused: no cell changes.
    pub fn refuses(
        &mut self,
        rt: &impl Abort,
        place: usize,
        codes: &[u8],
        letters: &[u8],
        fault: Fault,
    ) -> Result<(), Fail> {
        let before = self.lists()?;
        assert_eq!(rt; self.load(place, codes, letters)?, Err(fault));
        assert!(rt; self.kept(&before));
        Ok(())
    }

    /// Withdraws a model, which must be done: no cell changes.
    pub fn leaves(&mut self, rt: &impl Abort, place: usize) -> Result<(), Fail> {
        let before = self.lists()?;
        assert_eq!(rt; self.withdraw(place), Ok(()));
        assert!(rt; self.kept(&before));
        Ok(())
    }

    /// Tries a word that must have this answer.
    pub fn tells(
        &self,
        rt: &impl Abort,
        place: usize,
        letters: &[u8],
        expected: Trial,
    ) -> Result<(), Fail> {
        assert_eq!(rt; self.trial(place, letters)?, Ok(expected));
        Ok(())
    }

    /// Tries a word, which must be refused.
    pub fn refuses_trial(
        &self,
        rt: &impl Abort,
        place: usize,
        letters: &[u8],
        fault: Fault,
    ) -> Result<(), Fail> {
        assert_eq!(rt; self.trial(place, letters)?, Err(fault));
        Ok(())
    }

    /// Compares a place with a reader.
    pub fn compare<R: Reader<S>>(
        &self,
        place: usize,
        reader: &R,
        work: &mut [u32],
        word: &mut [u16],
    ) -> Result<Option<usize>, Fault> {
        compare(
            &self.shelf,
            &self.symbols,
            &self.numbers,
            place,
            reader,
            work,
            word,
        )
    }

    /// Compares a place with a reader over lists that are just long enough for so many pairs of states. The reader must take all words of
    /// the place, or miss one, the least by these positions; then the word list begins with them, its other cells as they were.
    pub fn compares<R: Reader<S>>(
        &self,
        rt: &impl Abort,
        place: usize,
        reader: &R,
        pairs: usize,
        missed: Option<&[u16]>,
    ) -> Result<(), Fail> {
        let mut work = [WORK; 512];
        let mut word = [MARK; 256];
        assert!(rt; pairs <= 256);
        let word = &mut word[..pairs];
        assert_eq!(rt;
            self.compare(place, reader, &mut work[..2 * pairs], word),
            Ok(missed.map(|positions| positions.len()))
        );
        assert!(rt; told(word, missed.unwrap_or(&[])));
        Ok(())
    }

    /// Compares a place with a reader over lists of so many cells, which must be refused: no cell changes.
    pub fn refuses_lists<R: Reader<S>>(
        &self,
        rt: &impl Abort,
        place: usize,
        reader: &R,
        work_cells: usize,
        word_cells: usize,
        fault: Fault,
    ) -> Result<(), Fail> {
        let mut work = [WORK; 512];
        let mut word = [MARK; 256];
        assert!(rt; work_cells <= 512);
        assert!(rt; word_cells <= 256);
        assert_eq!(rt;
            self.compare(
                place,
                reader,
                &mut work[..work_cells],
                &mut word[..word_cells]
            ),
            Err(fault)
        );
        assert!(rt; work_kept(&work));
        assert!(rt; told(&word, &[]));
        Ok(())
    }

    /// Compares a place with a reader for so many pairs of states: it must have some answer, and leave the cells of the word list that
    /// it doesn't need.
    pub fn answers<R: Reader<S>>(
        &self,
        rt: &impl Abort,
        place: usize,
        reader: &R,
        pairs: usize,
    ) -> Result<(), Fail> {
        let mut work = [WORK; 512];
        let mut word = [MARK; 256];
        assert!(rt; self.compare(place, reader, &mut work, &mut word).is_ok());
        assert!(rt; behind_kept(&word, pairs));
        Ok(())
    }
}
