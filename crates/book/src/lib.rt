// Books, several bodies in one list of bytes with an entry for each, and the line that tells what a comparison found.
#![tactic(auto)]

ghost use Rattle.book.specs.Entries.{RefusalsStand, OneFault, BodiesStand};

pub mod lines;
pub mod making;
mod pens;
pub mod reading;

/// The most bodies of a book.
pub const MOST_BODIES: usize = 16;

/// The most bytes of a book.
pub const MOST_BYTES: usize = 16384;

/// A refusal of `Book::read` means that the bytes are the book of no bodies.
pub fn refusals_stand()
    ensures { RefusalsStand }
{}

/// Bytes that are no book have one fault.
pub fn one_fault()
    ensures { OneFault }
{}

/// A book has one list of bodies: those that its entries give.
pub fn bodies_stand()
    ensures { BodiesStand }
{}
