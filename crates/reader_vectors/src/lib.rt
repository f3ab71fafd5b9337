// A reader of one word, and tests of readers under layers.
#![tactic(auto)]

ghost use Rattle.std.specs.Prelude.{◌≡◌};
ghost use Rattle.reader_vectors.specs.OneWords.{stands, one_word_table, one_word_sound, one_word_alike};

use readers::Reader;
use symbols::Symbol;

#[cfg(test)]
mod tests;

/// A reader that takes one word alone, of which the first 4095 symbols count. State x is the state after x symbols.
#[derive(Drop)]
pub struct OneWord<'a, S> {
    word: &'a [S],
}

impl<'a, S> OneWord<'a, S> {
    /// The reader of this word.
    pub fn new(word: &'a [S]) -> OneWord<'a, S>
        ensures { result.word.now ≡ word.now }
    {
        OneWord { word }
    }
}

/// Whether a symbol stands at the place, counted from 0, that is the same as this one.
fn stands<S: Symbol>(word: &[S], at: usize, symbol: &S) -> bool
    ensures { result ≡ stands S.Symbol.same word.now at symbol.now }
{
    // No `get` and `is_some_and`: tried, and the search did not read what the closure answers off its call.
    at < word.len() && word[at].same(symbol)
}

impl<'a, S: Symbol> Reader<S> for OneWord<'a, S> {
    ghost table = { λ r. one_word_table S.Symbol.same r.word.now };

    ghost sound = { λ r. one_word_sound S.Symbol.same r.word.now };

    ghost alike = { λ r. one_word_alike S.Symbol.same S.Symbol.laws r.word.now };

    fn states(&self) -> u16 {
        self.word.len().min(4095) as u16 + 1
    }

    fn start(&self) -> u16 {
        0
    }

    fn is_ending(&self, state: u16) -> bool {
        usize::from(state) == self.word.len().min(4095)
    }

    fn step(&self, state: u16, symbol: &S) -> Option<u16> {
        (state < 4095 && stands(self.word, usize::from(state), symbol)).then(|| state + 1)
    }
}
