// Proper symbols: rows that follow the rule of their kind.
ghost use Rattle.std.specs.Prelude.{◌≡◌, ⊤};
ghost use Rattle.symbols.specs.Kinds.{by_part};

use super::forms::Form;
use super::{Printable, Symbol};
use std::alloc::AllocError;

/// A row: any data of its type is one, and the rule of its kind says which is proper.
pub trait Row: Printable {
    ghost proper: { Self → Type 0 };

    // A row is proper in one way at most, so that a ghost field can hold it.
    ghost one_way: { (r : Self) → IsProp (proper r) };
}

/// A proper symbol, judged and written by its row.
#[derive(Copy)]
pub struct Proper<R: Row> {
    pub(crate) row: R,
    ghost ok: { R.Row.proper row } by { R.Row.one_way row },
}

// By hand, since `Clone` can't be derived where a struct has both a ghost field and a type parameter.
impl<R: Row> Clone for Proper<R> {
    ghost is_clone = { λ a b. b ≡ a };

    ghost is_infallible = { λ _. ⊤ };

    fn clone(&self) -> Result<Proper<R>, AllocError> {
        Ok(*self)
    }
}

impl<R: Row> Proper<R> {
    /// The symbol as a row.
    pub fn row(&self) -> R
        ensures { result ≡ self.now.row }
    {
        self.row
    }
}

impl<R: Row> Symbol for Proper<R> {
    ghost same = { λ a b. R.Symbol.same a.row b.row };

    ghost foreign = { λ a. R.Symbol.foreign a.row };

    ghost laws = { by_part (λ a. a.row) R.Symbol.laws };

    fn same(&self, other: &Proper<R>) -> bool {
        self.row.same(&other.row)
    }

    fn foreign(&self) -> bool {
        self.row.foreign()
    }
}

impl<R: Row> Printable for Proper<R> {
    ghost written = { λ a. R.Printable.written a.row };

    ghost sized = { λ a. R.Printable.sized a.row };

    fn written(&self) -> Form {
        self.row.written()
    }
}
