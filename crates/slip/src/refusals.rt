// Why nothing is told of a book's models.
ghost use Rattle.std.specs.Prelude.{◌≡◌, Some};
ghost use Rattle.slip.specs.Refusals.{refusal_shown};
ghost use Rattle.slip.specs.declared.refusals.Refusal.TheVariants.{Book};

use faults::{Fault, Numbered};
use std::fmt;

/// Why nothing is told of a book's models.
#[derive(Clone, Copy, PartialEq, Eq, Debug, Drop)]
pub(crate) enum Refusal {
    /// The bytes are no book.
    Book(Fault),
    /// This body is the first that gives no model.
    Body { body: usize, fault: Fault },
}

impl From<Fault> for Refusal {
    ghost from_gives = { λ fault refusal. refusal ≡ Book fault };

    fn from(fault: Fault) -> Refusal {
        Refusal::Book(fault)
    }
}

impl fmt::Display for Refusal {
    ghost output = { λ refusal. Some (refusal_shown refusal) };

    fn fmt<W: fmt::Write>(&self, f: &mut fmt::Formatter<W>) -> fmt::Result {
        match self {
            Refusal::Book(fault) => {
                let numbered = Numbered(*fault);
                write!(f, "book: {numbered}")
            }
            Refusal::Body { body, fault } => write!(f, "body {body}: {fault}"),
        }
    }
}
