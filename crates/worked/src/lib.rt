//! Worked cases: what loads, trials, comparisons and layers answer for small models. Each function only states its theorem.
#![tactic(auto)]

ghost use Rattle.worked.specs.Cases.{WorkedCases};
ghost use Rattle.worked.specs.Kinds.{WorkedCues, WorkedNames};

use symbols::Symbol;

/// The worked cases, jointly, for any three symbols of a kind of which no two are the same and one is foreign.
pub fn worked_cases<S: Symbol>()
    ensures { WorkedCases S.Symbol.same S.Symbol.foreign }
{}

/// The worked cases of the names `a`, `b` and `x-t`.
pub fn worked_names()
    ensures { WorkedNames }
{}

/// The worked cases of the cues `90.3c`, `80.3c` and `b0.66`.
pub fn worked_cues()
    ensures { WorkedCues }
{}
