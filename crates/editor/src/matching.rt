// Names matched beforehand: a reader that is given, for each name, the positions that have it.
ghost use Rattle.std.specs.Prelude.{◌≡◌, ℕ, min, false, ◌==◌};
ghost use Rattle.tables.proofs.PlaceLaws.{place_sound};
ghost use Rattle.editor.specs.Tabled.{names_of};
ghost use Rattle.editor.specs.Matching.{Marks, MarksAll, match_table, match_alike, markers, meets, namesake_laws, lowest};

use crate::studying::Studied;
use models::tables::Sets;
use readers::Reader;
use symbols::Symbol;
use symbols::name_rows::NameRow;

/// The positions of a model that have a name: bit k stands for position k + 1.
#[derive(Clone, Copy)]
pub struct Namesakes {
    pub positions: u64,
}

impl Symbol for Namesakes {
    ghost same = { λ a b. (a.positions == b.positions) };

    ghost foreign = { λ a. false };

    ghost laws = { namesake_laws };

    fn same(&self, other: &Namesakes) -> bool {
        self.positions == other.positions
    }

    fn foreign(&self) -> bool {
        false
    }
}

/// The positions of a model that have the name.
fn find_namesakes(name: &NameRow, model: &Studied) -> Namesakes
    ensures { Marks result.positions name.now (names_of model.now) }
{
    let mut positions = 0;
    for (k, other) in model.names().iter().enumerate() {
        if other.same(name) {
            positions |= 1 << k;
        }
    }
    Namesakes { positions }
}

/// For each name of the first model, the positions of the second that have it.
pub(crate) fn match_names(first: &Studied, second: &Studied) -> [Namesakes; 64]
    ensures { MarksAll result (names_of first.now) (names_of second.now) }
{
    let mut sets = [Namesakes { positions: 0 }; 64];
    // Written by index: of a list that is zipped with another and written through, a proof knows nothing but the length.
    for (j, name) in first.names().iter().enumerate() {
        sets[j] = find_namesakes(name, second);
    }
    sets
}

/// The position of the lowest bit of the set among so many.
fn lowest_position(set: u64, count: usize) -> Option<u16>
    ensures { result ≡ lowest (min 64 count) 0 set }
{
    let k = set.trailing_zeros() as usize;
    (k < count.min(64)).then_some(k as u16 + 1)
}

/// Reads by the tables of a model of so many positions: state 0 is the start, and state x is position x. Where a name leads is told
/// by the positions that have it.
#[derive(Drop)]
pub struct MatchReader<'a> {
    pub followers: &'a [u64],
    pub sets: Sets,
    pub count: usize,
}

impl<'a> Reader<Namesakes> for MatchReader<'a> {
    ghost table = { λ r. match_table r.sets r.followers.now r.count };

    ghost sound = { λ r. place_sound meets (markers 0 (min 64 r.count)) r.followers.now r.sets.first r.sets.last r.sets.nullable };

    ghost alike = { λ r. match_alike r.sets r.followers.now r.count };

    fn states(&self) -> u16 {
        self.count.min(64) as u16 + 1
    }

    fn start(&self) -> u16 {
        0
    }

    fn is_ending(&self, state: u16) -> bool {
        state < self.states() && self.sets.may_end(state as usize)
    }

    fn step(&self, state: u16, symbol: &Namesakes) -> Option<u16> {
        let count = self.count.min(64);
        let next = self
            .sets
            .next_positions(self.followers, count, state as usize);
        lowest_position(next & symbol.positions, self.count)
    }
}
