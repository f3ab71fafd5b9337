// One studied text against another.
ghost use Rattle.std.specs.Prelude.{◌≡◌, ◌*◌, ◌≤◌, length};
ghost use Rattle.symbols.specs.declared.name_rows.NameRow.{NameRow};
ghost use Rattle.language.specs.Meaning.{Model};
ghost use Rattle.editor.specs.Tabled.{Tabled, Says, included_in, pairs_of};

use crate::matching::{MatchReader, match_names};
use crate::studying::Studied;
use faults::Fault;
use models::Automaton;
use product::compare_tables;

/// Pairs for which short lists are enough: two models of some twenty names have fewer.
const FEW_PAIRS: usize = 512;

/// Whether a comparison says that the model is included.
fn is_included(found: Result<Option<usize>, Fault>) -> bool
    ensures { result ≡ included_in found }
{
    matches!(found, Ok(None))
}

// The lists are lent and not of sizes given by const parameters, which was tried: models of sixteen names and more then took up to a seventh longer.
/// Compares over lists that are long enough. Names are matched beforehand, so that a step of the second model's reader compares none.
fn includes_over(first: &Studied, second: &Studied, work: &mut [u32], word: &mut [u16]) -> bool
    requires work { 2 * pairs_of first.now second.now ≤ length work.old }
    requires word { pairs_of first.now second.now ≤ length word.old }
    ensures { (m n : Model NameRow) → Tabled first.now m → Tabled second.now n → Says m n result }
{
    let matched = match_names(first, second);
    let reader = MatchReader {
        followers: &second.followers,
        sets: second.sets,
        count: second.count,
    };
    let model = Automaton {
        sets: first.sets,
        followers: &first.followers,
        symbols: &matched[..first.count],
    };
    is_included(compare_tables(model, &reader, work, word))
}

/// Whether each word of the first model is one of the second. Models of few names are compared over short lists, since lists are cleared first.
pub(crate) fn includes(first: &Studied, second: &Studied) -> bool
    ensures { (m n : Model NameRow) → Tabled first.now m → Tabled second.now n → Says m n result }
{
    if (first.count + 1) * (second.count + 2) <= FEW_PAIRS {
        includes_over(first, second, &mut [0; 1024], &mut [0; FEW_PAIRS])
    } else {
        // 65 states of the first model, and 65 of the second's reader and one where it is stuck
        includes_over(first, second, &mut [0; 8580], &mut [0; 4290])
    }
}
