//! A model, given by its tables, against a reader: whether the reader takes every word of the model.
#![tactic(auto)]

ghost use Rattle.std.specs.Prelude.{◌≡◌, length};
ghost use Rattle.language.specs.Meaning.{Model};
ghost use Rattle.models.specs.TablesOf.{TablesOf};
ghost use Rattle.product.specs.Pairs.{product};
ghost use Rattle.product.specs.Compares.{fault_of_shortage, Searched, Spent, CompareSays};
ghost use Rattle.product.specs.Theorems.{OneComparison, IncludedExactly, SameWords};

mod pairs;

use faults::{Fault, Layer};
use models::Automaton;
use pairs::Product;
use readers::Reader;
use symbols::Symbol;
use walk::{Shortage, least_word};

/// Fault 11 of the list that is too short.
// No `From`: neither the shortage nor the fault is a type of this crate.
fn short_list(shortage: Shortage) -> Fault
    ensures { result ≡ fault_of_shortage shortage }
{
    let (Shortage::Work { cells } | Shortage::Word { cells }) = shortage;
    Fault::ShortList {
        layer: Layer::Compare,
        cells,
    }
}

/// Compares a model, by the automaton of its tables, with a reader: how many positions the least word of the model has that the reader
/// doesn't take, if there is one. They go to the front of `word`, whose other cells stay as they are.
/// For n positions and M states, `work` needs 2 × (n + 1) × (M + 1) cells, and `word` half as many; a refusal changes
/// nothing. Otherwise what the work list holds is free.
pub fn compare_tables<S: Symbol, R: Reader<S>>(
    model: Automaton<'_, '_, S>,
    reader: &R,
    work: &mut [u32],
    word: &mut [u16],
) -> Result<Option<usize>, Fault>
    ensures exact { Searched (product model.entry.sets model.entry.followers.now model.entry.symbols.now (R.Reader.table reader.now)) work.old word.old work.new word.new result }
    ensures says { (m : Model S) → TablesOf S.Symbol.same model.entry.sets model.entry.followers.now model.entry.symbols.now m → CompareSays S.Symbol.same (R.Reader.table reader.now) m (length work.old) word.old result word.new }
    ensures spent { Spent result work.old work.new }
{
    least_word(&Product { model, reader }, work, word).map_err(short_list)
}

/// A theorem: for a model, a reader and two lists there is one answer, and one word list that is given back with it.
pub fn one_comparison<S: Symbol>()
    ensures { OneComparison S.Symbol.same }
{}

/// A theorem: with room in both lists, the answer is `Ok(None)` exactly when the reader takes every word of the model.
pub fn included_exactly<S: Symbol>()
    ensures { IncludedExactly S.Symbol.same }
{}

/// A theorem: models with the same symbols and the same marked words have the same answers.
pub fn same_words<S: Symbol>()
    ensures { SameWords S.Symbol.same }
{}
