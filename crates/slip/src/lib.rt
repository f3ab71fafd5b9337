//! The slip: what a tester is told of the models of a book.
#![tactic(auto)]

ghost use Rattle.slip.specs.Theorems.{OneSlip};

mod calls;
mod desks;
mod printing;
mod refusals;
mod telling;

pub use printing::{Slip, slip_of};

/// The same is printed for the same bytes.
pub fn one_slip()
    ensures { OneSlip }
{}
