// Models by their positions: the tables of a model, the positions that compete, and the trial of a word.
#![tactic(auto)]

ghost use Rattle.std.specs.Prelude.{◌≡◌, ◌++◌, length, take, drop};
ghost use Rattle.language.specs.Meaning.{given};
ghost use Rattle.models.specs.Told.{PairTold, SetsTold, StudyTold};
ghost use Rattle.models.specs.Theorems.{OneAnswer};

mod automaton;
mod bits;
mod machine;
pub mod pairs;
pub mod tables;
pub mod trials;

pub use automaton::Automaton;
use faults::Fault;
use machine::tabulate;
use pairs::{Pair, least_pair};
use symbols::Symbol;
use tables::Sets;

/// Writes the rows over the beginning of `followers`, as far as that goes.
fn keep(rows: &[u64], followers: &mut [u64])
    ensures { followers.new ≡ take (length followers.old) rows.now ++ drop (length rows.now) followers.old }
{
    let n = rows.len().min(followers.len());
    followers[..n].copy_from_slice(&rows[..n]);
}

/// The sets of a model; the followers of position x go into cell x - 1 of `followers`, and no other cell changes.
pub fn sets(codes: &[u8], symbols: usize, followers: &mut [u64]) -> Result<Sets, Fault>
    ensures { SetsTold symbols codes.now result followers.old followers.new }
{
    let tables = tabulate(codes, symbols)?;
    keep(&tables.rows[..symbols], followers);
    Ok(tables.sets)
}

/// The competing pair with the least first, then the least second position, if any.
pub fn competing<S: Symbol>(codes: &[u8], symbols: &[S]) -> Result<Option<Pair>, Fault>
    ensures { PairTold S.Symbol.same (given codes.now symbols.now) result }
{
    let n = symbols.len();
    let tables = tabulate(codes, n)?;
    Ok(least_pair(tables.sets.first, &tables.rows[..n], symbols))
}

/// The sets of a model that is not ambiguous, with its followers as above.
pub fn study<S: Symbol>(codes: &[u8], symbols: &[S], followers: &mut [u64]) -> Result<Sets, Fault>
    ensures { StudyTold S.Symbol.same (given codes.now symbols.now) result followers.old followers.new }
{
    let n = symbols.len();
    let tables = tabulate(codes, n)?;
    let rows = &tables.rows[..n];
    match least_pair(tables.sets.first, rows, symbols) {
        Some(pair) => Err(Fault::Ambiguous {
            first: pair.first,
            second: pair.second,
        }),
        None => {
            keep(rows, followers);
            Ok(tables.sets)
        }
    }
}

/// Each call has one answer, and leaves its list with one content.
pub fn one_answer<S: Symbol>()
    ensures { OneAnswer S.Symbol.same }
{}
