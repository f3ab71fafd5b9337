// What the words of a model begin and end with, and whether one is empty, from its parts.
ghost use Rattle.std.specs.Prelude.{◌≡◌, ◌+◌, ◌<◌};
ghost use Rattle.codes.specs.Tree.{either, empty, leaf, many, maybe, some, then};
ghost use Rattle.language.specs.Words.{Expr};
ghost use Rattle.models.specs.Machine.{Shows};
ghost use Rattle.models.specs.Stepping.{can_end, set_after};

use super::bits::has;

/// What the words of a model begin and end with, and whether one is empty; bit y - 1 of a set stands for position y.
#[derive(Clone, Copy, Default, PartialEq, Eq, Debug)]
pub struct Sets {
    pub nullable: bool,
    pub first: u64,
    pub last: u64,
}

impl Sets {
    /// The sets of the empty word.
    pub(crate) fn of_empty() -> Sets
        ensures { Shows result empty }
    {
        Sets {
            nullable: true,
            ..Sets::default()
        }
    }

    /// The sets of position k + 1.
    pub(crate) fn of_position(k: usize) -> Sets
        requires { k < 64 }
        ensures { Shows result (leaf (k + 1)) }
    {
        let only = 1 << k;
        Sets {
            nullable: false,
            first: only,
            last: only,
        }
    }

    /// The sets of this part, then another.
    pub(crate) fn then(self, next: Sets) -> Sets
        ensures { (e f : Expr) → Shows self e → Shows next f → Shows result (then e f) }
    {
        Sets {
            nullable: self.nullable && next.nullable,
            first: if self.nullable {
                self.first | next.first
            } else {
                self.first
            },
            last: if next.nullable {
                next.last | self.last
            } else {
                next.last
            },
        }
    }

    /// The sets of this part or another.
    pub(crate) fn or(self, other: Sets) -> Sets
        ensures { (e f : Expr) → Shows self e → Shows other f → Shows result (either e f) }
    {
        Sets {
            nullable: self.nullable || other.nullable,
            first: self.first | other.first,
            last: self.last | other.last,
        }
    }

    /// The sets of this part where it may be left out.
    pub(crate) fn optional(self) -> Sets
        ensures maybe { (e : Expr) → Shows self e → Shows result (maybe e) }
        ensures many { (e : Expr) → Shows self e → Shows result (many e) }
    {
        Sets {
            nullable: true,
            ..self
        }
    }

    /// The sets of this part where it comes at least once: they are the same.
    // Written out, since whether it may be empty is what differs from `optional`.
    pub(crate) fn repeated(self) -> Sets
        ensures { (e : Expr) → Shows self e → Shows result (some e) }
    {
        Sets {
            nullable: self.nullable,
            ..self
        }
    }

    /// The positions that may come after a state, of so many positions; bit y - 1 stands for position y. None come after a
    /// state past the positions or past the list of followers.
    pub fn next_positions(self, followers: &[u64], positions: usize, state: usize) -> u64
        ensures { result ≡ set_after self followers.now positions state }
    {
        if state == 0 {
            self.first
        } else if state <= positions {
            followers.get(state - 1).copied().unwrap_or(0)
        } else {
            0
        }
    }

    /// Whether a word may end in a state.
    pub fn may_end(self, state: usize) -> bool
        ensures { result ≡ can_end self state }
    {
        if state == 0 {
            self.nullable
        } else {
            state <= 64 && has(self.last, state - 1)
        }
    }
}
