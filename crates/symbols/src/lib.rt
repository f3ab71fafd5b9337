// Kinds of symbols: when two symbols are the same, which are foreign, and how one is written.
#![tactic(auto)]

ghost use Rattle.std.specs.Prelude.{◌≡◌, ℕ, Bool, List};
ghost use Rattle.symbols.specs.Kinds.{KindLaws};
ghost use Rattle.symbols.specs.Forms.{Sized, form_bytes};

pub mod cue_rows;
pub mod cues;
pub mod forms;
mod name_bytes;
pub mod name_rows;
pub mod names;
pub mod proper;

use forms::Form;

/// A kind of symbol: it tells whether two symbols are the same and whether one is foreign, and proves the four laws.
pub trait Symbol: Copy {
    ghost same: { Self → Self → Bool };

    ghost foreign: { Self → Bool };

    // Sameness is reflexive, symmetric and transitive; same symbols are both foreign or both not.
    ghost laws: { KindLaws same foreign };

    fn same(&self, other: &Self) -> bool
        ensures { result ≡ same self.now other.now };

    fn foreign(&self) -> bool
        ensures { result ≡ foreign self.now };
}

/// A kind of symbol with a written form of 1 to 32 bytes.
pub trait Printable: Symbol {
    ghost written: { Self → List ℕ };

    ghost sized: { (a : Self) → Sized (written a) };

    fn written(&self) -> Form
        ensures { form_bytes result ≡ written self.now };
}
