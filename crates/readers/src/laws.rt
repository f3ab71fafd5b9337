// The laws of the layers, for every kind of symbol. Each function only states its law.
ghost use Rattle.tables.specs.Laws.{HeldLaw, SkipLaw, LimitLaw, PileLaw};

use symbols::Symbol;

/// The limit that a layer holds is the one asked for where it fits, and otherwise the greatest that fits.
pub fn held_law()
    ensures { HeldLaw }
{}

/// Skip takes a word exactly when the reader below takes it with the foreign symbols dropped.
pub fn skip_law<S: Symbol>()
    ensures { SkipLaw S.Symbol.same S.Symbol.foreign }
{}

/// A limit takes exactly the words of at most so many symbols that the reader below takes.
pub fn limit_law<S: Symbol>()
    ensures { LimitLaw S.Symbol.same S.Symbol.foreign }
{}

/// Layers piled in any order take exactly the words that they should.
pub fn pile_law<S: Symbol>()
    ensures { PileLaw S.Symbol.same S.Symbol.foreign }
{}
