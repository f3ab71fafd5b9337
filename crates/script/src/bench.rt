// A shelf of cues, with the lists that are lent to its calls.
ghost use Rattle.symbols.specs.CueRows.{cue_same};
ghost use Rattle.comparison.specs.Runs.{request, Made};
ghost use Rattle.script.specs.Benches.{memory_of};

use comparison::{Answer, Call, replay};
use faults::Fault;
use readers::Reader;
use shelf::{CELLS, MOST_PAIRS, PLACES, PlaceReader, Shelf};
use std::alloc::{AllocError, Global};
use std::slice::from_ref;
use symbols::cue_rows::CueRow;
use symbols::cues::Cue;
use thiserror::Error;

/// Why a call has no answer.
#[derive(Debug, Drop, Error)]
pub(crate) enum Stop {
    #[error(transparent)]
    Refused(#[from] Fault),
    #[error(transparent)]
    Memory(#[from(alloc)] AllocError),
}

/// A shelf and its lists, long enough for every place and every comparison.
// Lists on the heap, which a program may take: a slip's desk is a library's, so it has arrays.
#[derive(Drop)]
pub(crate) struct Bench {
    shelf: Shelf,
    symbols: Vec<CueRow>,
    numbers: Vec<u64>,
    work: Vec<u32>,
    word: Vec<u16>,
}

/// Refuses the first row that is no cue.
fn check_cues(rows: &[CueRow]) -> Result<(), Fault> {
    for row in rows {
        Cue::new(row.status, row.datum)?;
    }
    Ok(())
}

impl Bench {
    /// An empty shelf.
    pub(crate) fn new(heap: Global) -> Result<Bench, AllocError> {
        Ok(Bench {
            shelf: Shelf::new(),
            symbols: vec![in heap; CueRow::default(); PLACES * CELLS]?,
            numbers: vec![in heap; 0; PLACES * CELLS]?,
            work: vec![in heap; 0; 2 * MOST_PAIRS]?,
            word: vec![in heap; 0; MOST_PAIRS]?,
        })
    }

    /// Makes one call.
    // A list of one call, since what is told rests on what `replay` promises for lists of calls.
    fn make<R: Reader<CueRow>>(&mut self, call: &Call<CueRow, R>) -> Result<Answer, Fault>
        ensures { Made cue_same (memory_of self.old) (request R.Reader.table call.now) result (memory_of self.new) }
    {
        let mut answers = [Ok(Answer::Done)];
        let _room = replay(
            &mut self.shelf,
            &mut self.symbols,
            &mut self.numbers,
            &mut self.work,
            &mut self.word,
            from_ref(call),
            &mut answers,
        );
        answers[0]
    }

    /// Loads the model of these codes and cues.
    pub(crate) fn load(
        &mut self,
        place: usize,
        codes: &[u8],
        cues: &[CueRow],
    ) -> Result<Answer, Fault> {
        check_cues(cues)?;
        self.make::<PlaceReader<CueRow>>(&Call::Load {
            place,
            codes,
            symbols: cues,
        })
    }

    /// Withdraws what a place holds.
    pub(crate) fn withdraw(&mut self, place: usize) -> Result<Answer, Fault> {
        self.make::<PlaceReader<CueRow>>(&Call::Withdraw { place })
    }

    /// Tries a word on what a place holds.
    pub(crate) fn trial(&mut self, place: usize, word: &[CueRow]) -> Result<Answer, Fault> {
        check_cues(word)?;
        self.make::<PlaceReader<CueRow>>(&Call::Trial { place, word })
    }

    /// Compares what a place holds with the reader of another. That reader reads copies of the lists, since calls write the lists
    /// themselves.
    pub(crate) fn compare(&mut self, place: usize, other: usize) -> Result<Answer, Stop> {
        let symbols = self.symbols.clone()?;
        let numbers = self.numbers.clone()?;
        let reader = self.shelf.reader(&symbols, &numbers, other);
        Ok(self.make(&Call::Compare {
            place,
            reader: &reader,
        })?)
    }

    /// The positions that the last comparison has told.
    pub(crate) fn positions(&self) -> &[u16] {
        &self.word
    }

    /// The symbol of a position of what a place holds.
    pub(crate) fn symbol(&self, place: usize, position: u16) -> Option<CueRow> {
        let model = self.shelf.reader(&self.symbols, &self.numbers, place);
        let at = usize::from(position).checked_sub(1)?;
        model.automaton.symbols.get(at).copied()
    }
}
