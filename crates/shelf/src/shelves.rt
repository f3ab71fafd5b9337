// The shelf and its calls.
ghost use Rattle.std.specs.Prelude.{◌≡◌, ◌*◌, length, replicate, cond, is_some, Some, None, Option};
ghost use Rattle.language.specs.Meaning.{Model, given};
ghost use Rattle.shelf.specs.Places.{Holds, cells, cells_of, record_at, room, state, table_from};
ghost use Rattle.shelf.specs.Calls.{LoadEnds, Loads, Refines, TakesJust, TrialEnds, Tries, Withdraws, after_load, after_withdraw, states_of, taken_at, withdraw_ends};

use crate::place_readers::PlaceReader;
use crate::records::Summary;
use faults::Fault;
use models::trials::Trial;
use models::{Automaton, study};
use symbols::Symbol;

/// How many places a shelf has.
pub const PLACES: usize = 16;

/// How many cells of each list a place owns: place p has the cells from 64 × p on.
pub const CELLS: usize = 64;

/// The most pairs of a state of a place's model and one of a place's reader: a model has at most 64 positions and a start, and a
/// reader at most 65 states and one where it is stuck.
pub const MOST_PAIRS: usize = 65 * 66;

/// The records of the places: what is kept of the model of each, if it is taken.
#[derive(Drop)]
pub struct Shelf {
    records: [Option<Summary>; PLACES],
}

/// Where the cells of a place begin, if it is one of the sixteen and lists of these lengths have its cells.
fn first_cell(place: usize, symbols: usize, numbers: usize) -> Option<usize>
    ensures { result ≡ cond (room symbols numbers place) (Some (place * 64)) None }
{
    (place < PLACES && place * CELLS + CELLS <= symbols.min(numbers)).then(|| place * CELLS)
}

// Both lists are lent to each call as lists, since the caller keeps them, be it a program or one in C: a load writes to them, and
// `withdraw`, `stand`, `reader` and `trial` only read them.
impl Shelf {
    /// A shelf whose places are empty.
    pub fn new() -> Shelf
        ensures { result.records ≡ replicate 16 None }
    {
        Shelf {
            records: [None; PLACES],
        }
    }

    /// Where the cells of a taken place begin in lists of these lengths, and what is kept of it; if it is none, why calls there are
    /// refused.
    fn taken(&self, symbols: usize, numbers: usize, place: usize) -> Result<(usize, Summary), Fault>
        ensures { result ≡ taken_at (room symbols numbers place) (record_at self.now place) place }
    {
        let from = first_cell(place, symbols, numbers).ok_or(Fault::NoPlace { place })?;
        let kept = self.records[place].ok_or(Fault::Vacant { place })?;
        Ok((from, kept))
    }

    /// Loads a model into an empty place: its symbols and its followers go into the first cells of the place. Refused where there is
    /// no such place, it is taken, or the model is too large, malformed or ambiguous, in this order; then nothing changes.
    pub fn load<S: Symbol>(
        &mut self,
        symbols: &mut [S],
        numbers: &mut [u64],
        place: usize,
        codes: &[u8],
        model: &[S],
    ) -> Result<(), Fault>
        ensures refines { Refines S.Symbol.same (state self.old symbols.old numbers.old) place (after_load result (given codes.now model.now)) (λ k. LoadEnds S.Symbol.same (room (length symbols.old) (length numbers.old) place) (is_some k) place (given codes.now model.now) result) (state self.new symbols.new numbers.new) }
        ensures exact { Loads S.Symbol.same (state self.old symbols.old numbers.old) place (given codes.now model.now) result (state self.new symbols.new numbers.new) }
    {
        let from = first_cell(place, symbols.len(), numbers.len()).ok_or(Fault::NoPlace { place })?;
        if self.records[place].is_some() {
            return Err(Fault::Taken { place });
        }
        let sets = study(codes, model, &mut numbers[from..from + CELLS])?;
        symbols[from..from + model.len()].copy_from_slice(model);
        self.records[place] = Some(Summary {
            count: model.len(),
            sets,
        });
        Ok(())
    }

    /// Empties a taken place, and leaves both lists.
    pub fn withdraw<S: Symbol>(
        &mut self,
        symbols: &[S],
        numbers: &[u64],
        place: usize,
    ) -> Result<(), Fault>
        ensures refines { Refines S.Symbol.same (state self.old symbols.now numbers.now) place (after_withdraw result) (λ k. result ≡ withdraw_ends (room (length symbols.now) (length numbers.now) place) (is_some k) place) (state self.new symbols.now numbers.now) }
        ensures exact { Withdraws (state self.old symbols.now numbers.now) place result (state self.new symbols.now numbers.now) }
    {
        self.stand(symbols, numbers, place)?;
        self.records[place] = None;
        Ok(())
    }

    /// Whether the place exists and is taken; if not, why calls there are refused.
    pub fn stand<S: Symbol>(
        &self,
        symbols: &[S],
        numbers: &[u64],
        place: usize,
    ) -> Result<(), Fault>
        ensures exact { result ≡ withdraw_ends (room (length symbols.now) (length numbers.now) place) (is_some (record_at self.now place)) place }
        ensures refines { (k : Option (Model S)) → Holds S.Symbol.same (state self.now symbols.now numbers.now) place k → result ≡ withdraw_ends (room (length symbols.now) (length numbers.now) place) (is_some k) place }
    {
        self.taken(symbols.len(), numbers.len(), place)?;
        Ok(())
    }

    /// The reader of the place: it takes just the words of what the place holds, and none where there is no such place.
    pub fn reader<'a, 'b, S: Symbol>(
        &self,
        symbols: &'a [S],
        numbers: &'b [u64],
        place: usize,
    ) -> PlaceReader<'a, 'b, S>
        ensures exact { cells result.automaton.symbols.now result.automaton.followers.now result.automaton.sets ≡ cells_of (state self.now symbols.now numbers.now) place }
        ensures takes { (k : Option (Model S)) → Holds S.Symbol.same (state self.now symbols.now numbers.now) place k → TakesJust S.Symbol.same k (table_from S.Symbol.same (cells result.automaton.symbols.now result.automaton.followers.now result.automaton.sets)) }
        ensures states { (k : Option (Model S)) → Holds S.Symbol.same (state self.now symbols.now numbers.now) place k → (table_from S.Symbol.same (cells result.automaton.symbols.now result.automaton.followers.now result.automaton.sets)).states ≡ states_of k }
    {
        let Ok((from, kept)) = self.taken(symbols.len(), numbers.len(), place) else {
            return PlaceReader::nothing();
        };
        PlaceReader {
            automaton: Automaton {
                sets: kept.sets,
                followers: &numbers[from..from + kept.count],
                symbols: &symbols[from..from + kept.count],
            },
        }
    }

    /// Tries a word on what a taken place holds.
    pub fn trial<S: Symbol>(
        &self,
        symbols: &[S],
        numbers: &[u64],
        place: usize,
        word: &[S],
    ) -> Result<Trial, Fault>
        ensures refines { Refines S.Symbol.same (state self.now symbols.now numbers.now) place (λ k. k) (λ k. TrialEnds S.Symbol.same (room (length symbols.now) (length numbers.now) place) place k word.now result) (state self.now symbols.now numbers.now) }
        ensures exact { Tries S.Symbol.same (state self.now symbols.now numbers.now) place word.now result }
    {
        self.stand(symbols, numbers, place)?;
        let reader = self.reader(symbols, numbers, place);
        Ok(reader.automaton.trial(word))
    }
}
