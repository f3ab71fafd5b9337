// The promises about shelves and comparisons, for every kind of symbol and every reader. Each function only states its theorem.
ghost use Rattle.comparison.specs.Runs.{RunsAgree};
ghost use Rattle.comparison.specs.Promise.{Promise};
ghost use Rattle.comparison.specs.Lives.{LivesAgree};
ghost use Rattle.comparison.specs.Keeping.{SpoiledKeep};

use symbols::Symbol;

/// The main promise.
pub fn main_promise<S: Symbol>()
    ensures { Promise S.Symbol.same S.Symbol.foreign }
{}

/// After any list of calls, done or refused, each place holds what a plain shelf has there, and every answer is its answer.
pub fn runs_agree<S: Symbol>()
    ensures { RunsAgree S.Symbol.same }
{}

/// A place whose cells are spared holds what the plain shelf has there, and answers as it does, whatever else is written between
/// the calls.
pub fn lives_agree<S: Symbol>()
    ensures { LivesAgree S.Symbol.same }
{}

/// Whatever the cells of a place hold, a call there is refused only by what the shelf keeps of the place and by the lengths of the
/// lists, as the card of faults says; it writes in no other place, and nothing where it is refused.
pub fn spoiled_keep<S: Symbol>()
    ensures { SpoiledKeep S.Symbol.same }
{}
