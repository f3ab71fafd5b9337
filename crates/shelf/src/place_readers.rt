// The reader of a place.
ghost use Rattle.std.specs.Prelude.{◌≡◌, []};
ghost use Rattle.models.specs.Machine.{no_sets};
ghost use Rattle.tables.proofs.PlaceLaws.{place_sound, place_alike};
ghost use Rattle.shelf.specs.Places.{cells, table_from};

use models::Automaton;
use models::tables::Sets;
use readers::Reader;
use symbols::Symbol;

/// Reads words by the automaton of a model, which borrows the symbols and the followers of the positions.
#[derive(Drop)]
pub struct PlaceReader<'a, 'b, S> {
    pub automaton: Automaton<'b, 'a, S>,
}

impl<'a, 'b, S> PlaceReader<'a, 'b, S> {
    /// A reader with no position: it takes no word.
    pub(crate) fn nothing() -> PlaceReader<'a, 'b, S>
        ensures { cells result.automaton.symbols.now result.automaton.followers.now result.automaton.sets ≡ cells [] [] no_sets }
    {
        PlaceReader {
            automaton: Automaton {
                sets: Sets::default(),
                followers: &[],
                symbols: &[],
            },
        }
    }
}

impl<'a, 'b, S: Symbol> Reader<S> for PlaceReader<'a, 'b, S> {
    ghost table = { λ r. table_from S.Symbol.same (cells r.automaton.symbols.now r.automaton.followers.now r.automaton.sets) };

    ghost sound = { λ r. place_sound S.Symbol.same r.automaton.symbols.now r.automaton.followers.now r.automaton.sets.first r.automaton.sets.last r.automaton.sets.nullable };

    ghost alike = { λ r. place_alike S.Symbol.same r.automaton.symbols.now r.automaton.followers.now r.automaton.sets.first r.automaton.sets.last r.automaton.sets.nullable S.Symbol.laws };

    fn states(&self) -> u16 {
        self.automaton.positions() as u16 + 1
    }

    fn start(&self) -> u16 {
        0
    }

    fn is_ending(&self, state: u16) -> bool {
        state < self.states() && self.automaton.sets.may_end(usize::from(state))
    }

    fn step(&self, state: u16, symbol: &S) -> Option<u16> {
        let model = self.automaton;
        let counted = Automaton {
            symbols: &model.symbols[..model.positions()],
            ..model
        };
        counted
            .step(usize::from(state), symbol)
            .map(|next| next as u16)
    }
}
