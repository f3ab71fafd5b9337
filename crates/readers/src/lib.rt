// Readers of words over any kind of symbol, and the layers over a reader.
#![tactic(auto)]

ghost use Rattle.std.specs.Prelude.{◌≡◌, Decides};
ghost use Rattle.tables.specs.Tables.{Table, Sound, Alike};
ghost use Rattle.tables.specs.Words.{Takes};

use symbols::Symbol;

pub mod laws;
pub mod limit;
pub mod skip;

/// A reader of words: what it means is a table of 1 to 4096 states, numbered from 0. Its calls answer from the
/// table for every state asked: a state past the last is no ending, and no symbol leads on from it.
pub trait Reader<S: Symbol> {
    ghost table: { Self → Table S };

    // The table's start, endings and steps stay within its states.
    ghost sound: { (r : Self) → Sound (table r) };

    /// How many states there are.
    fn states(&self) -> u16
        ensures { result ≡ (table self.now).states };

    /// The state at which a word begins.
    fn start(&self) -> u16
        ensures { result ≡ (table self.now).start };

    /// Whether a word may end at the state.
    fn is_ending(&self, state: u16) -> bool
        ensures { result ≡ (table self.now).ending state };

    /// The state, if any, to which the symbol leads from the state.
    fn step(&self, state: u16, symbol: &S) -> Option<u16>
        ensures { result ≡ (table self.now).goes state symbol.now };

    // Same symbols lead alike.
    ghost alike: { (r : Self) → Alike S.Symbol.same (table r) };
}

/// Whether the reader takes the word: its symbols lead from the start to an ending.
pub fn takes<S: Symbol, R: Reader<S>>(reader: &R, word: &[S]) -> bool
    ensures { Decides result (Takes (R.Reader.table reader.now) word.now) }
{
    let mut state = reader.start();
    for symbol in word {
        match reader.step(state, symbol) {
            Some(next) => state = next,
            None => return false,
        }
    }
    reader.is_ending(state)
}
