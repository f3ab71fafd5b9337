// The tables of a model as an automaton: state 0 is the start, and state x is position x.
ghost use Rattle.std.specs.Prelude.{◌≡◌};
ghost use Rattle.language.specs.Meaning.{Model};
ghost use Rattle.models.specs.TablesOf.{TablesOf};
ghost use Rattle.models.specs.Stepping.{Steps, can_follow, positions};
ghost use Rattle.models.specs.Told.{TrialTold};

use super::bits::has;
use super::tables::Sets;
use super::trials::Trial;
use codes::MOST_SYMBOLS;
use symbols::Symbol;

/// The tables of a model as an automaton: state 0 is the start, and state x is position x.
#[derive(Clone, Copy)]
pub struct Automaton<'a, 'b, S> {
    pub sets: Sets,
    pub followers: &'a [u64],
    pub symbols: &'b [S],
}

impl<'a, 'b, S> Automaton<'a, 'b, S> {
    /// How many positions there are: of more than 64 symbols, only the first 64 count.
    pub fn positions(&self) -> usize
        ensures { result ≡ positions self.now.symbols.now }
    {
        self.symbols.len().min(MOST_SYMBOLS)
    }

    /// Whether a position may come after a state.
    pub fn may_follow(&self, state: usize, position: usize) -> bool
        ensures { result ≡ can_follow self.now.sets self.now.followers.now (positions self.now.symbols.now) state position }
    {
        let n = self.positions();
        let next = self.sets.next_positions(self.followers, n, state);
        (1..=n).contains(&position) && has(next, position - 1)
    }
}

impl<'a, 'b, S: Symbol> Automaton<'a, 'b, S> {
    /// The least position that may come after a state with the symbol; none after a state past the positions.
    pub fn step(&self, state: usize, symbol: &S) -> Option<usize>
        ensures { Steps S.Symbol.same self.now.sets self.now.followers.now self.now.symbols.now state symbol.now result }
    {
        let n = self.positions();
        let next = self
            .sets
            .next_positions(self.followers, self.symbols.len(), state);
        for (y, other) in self.symbols[..n].iter().enumerate() {
            if has(next, y) && other.same(symbol) {
                return Some(y + 1);
            }
        }
        None
    }

    /// Tries a word on the tables of a model.
    pub fn trial(&self, word: &[S]) -> Trial
        ensures { (m : Model S) → TablesOf S.Symbol.same self.now.sets self.now.followers.now self.now.symbols.now m
            → TrialTold S.Symbol.same m word.now result }
    {
        let mut state = 0;
        for (i, symbol) in word.iter().enumerate() {
            match self.step(state, symbol) {
                Some(next) => state = next,
                None => return Trial::No { longest: i },
            }
        }
        if self.sets.may_end(state) {
            Trial::Yes
        } else {
            Trial::No {
                longest: word.len(),
            }
        }
    }
}
