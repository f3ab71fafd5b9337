// The product graph: a state of a model beside a state of a reader.
ghost use Rattle.std.specs.Prelude.{◌≡◌, ◌≤◌, length};
ghost use Rattle.language.specs.Meaning.{symbol_at};
ghost use Rattle.product.specs.Pairs.{after, product};
ghost use Rattle.product.specs.PairsSound.{product_sound};

use models::Automaton;
use readers::Reader;
use symbols::Symbol;
use walk::Graph;

/// The reader's state after the symbol of a position; where it does not lead on, the reader is stuck: the state past its
/// last.
fn advance<S: Symbol, R: Reader<S>>(reader: &R, state: u16, symbols: &[S], position: usize) -> u32
    requires { (1 ≤ position) × (position ≤ length symbols.now) }
    ensures { result ≡ after (R.Reader.table reader.now) state (symbol_at symbols.now position) }
{
    let next = reader.step(state, &symbols[position - 1]);
    next.unwrap_or(reader.states()).into()
}

/// A model, by the automaton of its tables, beside a reader.
#[derive(Drop)]
pub(crate) struct Product<'a, 'b, 'c, S, R> {
    pub model: Automaton<'a, 'b, S>,
    pub reader: &'c R,
}

impl<'a, 'b, 'c, S: Symbol, R: Reader<S>> Graph for Product<'a, 'b, 'c, S, R> {
    ghost meaning = { λ p. product p.model.sets p.model.followers.now p.model.symbols.now (R.Reader.table p.reader.now) };

    ghost sound = { λ p. product_sound p.model.sets p.model.followers.now p.model.symbols.now (R.Reader.table p.reader.now) (R.Reader.sound p.reader.now) };

    fn nodes(&self) -> usize {
        (self.model.positions() + 1) * (usize::from(self.reader.states()) + 1)
    }

    fn labels(&self) -> u32 {
        self.model.positions() as u32
    }

    fn start(&self) -> u32 {
        self.reader.start().into()
    }

    fn step(&self, node: u32, label: u32) -> Option<u32> {
        let width = u32::from(self.reader.states()) + 1;
        let state = (node / width) as usize;
        if !self.model.may_follow(state, label as usize) {
            return None;
        }
        let next = advance(
            self.reader,
            (node % width) as u16,
            self.model.symbols,
            label as usize,
        );
        Some(label * width + next)
    }

    fn is_wanted(&self, node: u32) -> bool {
        let width = u32::from(self.reader.states()) + 1;
        let state = (node / width) as usize;
        state <= self.model.positions()
            && self.model.sets.may_end(state)
            && !self.reader.is_ending((node % width) as u16)
    }
}
