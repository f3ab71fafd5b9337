// The first two positions of a model that compete, by its tables.
ghost use Rattle.std.specs.Prelude.{◌≡◌, ℕ, ◌<◌, ◌≤◌, get_or, length};
ghost use Rattle.models.specs.Clashes.{Found, Opposing, Shares};

use super::bits::has;
use symbols::Symbol;

/// Two positions that compete, the lesser first; positions are counted from 1.
#[derive(Clone, Copy, PartialEq, Eq, Debug)]
pub struct Pair {
    pub first: usize,
    pub second: usize,
}

/// The positions that begin together with the one of bit x, or follow one position together with it.
fn sharing(first: u64, rows: &[u64], x: usize) -> u64
    requires { x < 64 }
    ensures { Shares result first rows.now (length rows.now) x }
{
    let mut set = if has(first, x) { first } else { 0 };
    for row in rows {
        if has(*row, x) {
            set |= *row;
        }
    }
    set
}

/// The least position of the set, past the one of bit x, that has its symbol.
fn opposing<S: Symbol>(set: u64, symbols: &[S], x: usize, symbol: &S) -> Option<usize>
    requires few { (length symbols.now ≤ 64) × (x < length symbols.now) }
    requires own { symbol.now ≡ get_or symbols.now x symbol.now }
    ensures { Opposing S.Symbol.same symbols.now set x (length symbols.now) result }
{
    for (y, other) in symbols.iter().enumerate().skip(x + 1) {
        if has(set, y) && symbol.same(other) {
            return Some(y);
        }
    }
    None
}

/// The least pair of the tables: least first, then least second.
pub(crate) fn least_pair<S: Symbol>(first: u64, rows: &[u64], symbols: &[S]) -> Option<Pair>
    requires { length symbols.now ≤ 64 }
    ensures { Found S.Symbol.same symbols.now first rows.now (length symbols.now) result }
{
    for (x, symbol) in symbols.iter().enumerate() {
        let set = sharing(first, rows, x);
        if let Some(y) = opposing(set, symbols, x, symbol) {
            return Some(Pair {
                first: x + 1,
                second: y + 1,
            });
        }
    }
    None
}
