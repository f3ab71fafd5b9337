// A place against a reader.
ghost use Rattle.std.specs.Prelude.{length, Option};
ghost use Rattle.language.specs.Meaning.{Model};
ghost use Rattle.shelf.specs.Places.{state, room, Holds};
ghost use Rattle.product.specs.Compares.{Spent};
ghost use Rattle.comparison.specs.Compares.{Compares, CompareEnds};

use faults::Fault;
use product::compare_tables;
use readers::Reader;
use shelf::Shelf;
use symbols::Symbol;

/// How many positions the least word of what the place holds has that the reader doesn't take, if there is one: they go to
/// the front of `word`. Refused where there is no such place, it is empty, or a list is too short, `work` first,
/// in this order; then nothing changes. Otherwise what the work list holds is free.
pub fn compare<S: Symbol, R: Reader<S>>(
    shelf: &Shelf,
    symbols: &[S],
    numbers: &[u64],
    place: usize,
    reader: &R,
    work: &mut [u32],
    word: &mut [u16],
) -> Result<Option<usize>, Fault>
    ensures refines { (k : Option (Model S)) → Holds S.Symbol.same (state shelf.now symbols.now numbers.now) place k → CompareEnds S.Symbol.same (R.Reader.table reader.now) (room (length symbols.now) (length numbers.now) place) place k (length work.old) word.old result word.new }
    ensures exact { Compares (R.Reader.table reader.now) (state shelf.now symbols.now numbers.now) place work.old word.old result work.new word.new }
    ensures spent { Spent result work.old work.new }
{
    shelf.stand(symbols, numbers, place)?;
    let model = shelf.reader(symbols, numbers, place);
    compare_tables(model.automaton, reader, work, word)
}
