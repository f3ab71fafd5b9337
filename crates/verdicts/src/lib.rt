//! What a text means as a model of names, and what one model is to another. Each function only states its theorem.
#![tactic(auto)]

ghost use Rattle.verdicts.specs.Theorems.{OneMeaning, OneVerdict, TextsAreFormed};

use symbols::Symbol;

/// A text has one meaning: one model that is not ambiguous, or one fault.
pub fn one_meaning()
    ensures { OneMeaning }
{}

/// The model of a text is well-formed, so that only ambiguity can be wrong with it.
pub fn texts_are_formed()
    ensures { TextsAreFormed }
{}

/// Of two models that are well-formed, the first is included in the second, or there is one least word that shows that it is not.
pub fn one_verdict<S: Symbol>()
    ensures { OneVerdict S.Symbol.same }
{}
