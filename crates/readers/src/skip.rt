// The layer that passes over foreign symbols.
ghost use Rattle.std.specs.Prelude.{◌≡◌};
ghost use Rattle.tables.specs.Layers.{skip_table};
ghost use Rattle.tables.proofs.Laws.{skip_sound, skip_alike};

use super::Reader;
use symbols::Symbol;

/// Skip over a reader: it stays in its state at a foreign symbol, and otherwise goes as the reader below.
#[derive(Drop)]
pub struct Skip<R> {
    below: R,
}

impl<R> Skip<R> {
    /// Skip over this reader.
    pub fn new(below: R) -> Skip<R>
        ensures { result.below ≡ below }
    {
        Skip { below }
    }
}

impl<S: Symbol, R: Reader<S>> Reader<S> for Skip<R> {
    ghost table = { λ r. skip_table S.Symbol.foreign (R.Reader.table r.below) };

    ghost sound = { λ r. skip_sound S.Symbol.foreign (R.Reader.table r.below) (R.Reader.sound r.below) };

    ghost alike = { λ r. skip_alike S.Symbol.foreign (R.Reader.table r.below) (R.Reader.alike r.below) S.Symbol.laws };

    fn states(&self) -> u16 {
        self.below.states()
    }

    fn start(&self) -> u16 {
        self.below.start()
    }

    fn is_ending(&self, state: u16) -> bool {
        self.below.is_ending(state)
    }

    fn step(&self, state: u16, symbol: &S) -> Option<u16> {
        if symbol.foreign() {
            (state < self.below.states()).then_some(state)
        } else {
            self.below.step(state, symbol)
        }
    }
}
