// The laws of shelves, for every kind of symbol. Each function only states its law.
ghost use Rattle.shelf.specs.Theorems.{NewHolds, OneAnswer, OneContent, PlaceReaders};

use symbols::Symbol;

/// The places of a new shelf hold nothing.
pub fn new_shelf<S: Symbol>()
    ensures { NewHolds S.Symbol.same }
{}

/// The reader of a place, whatever the lists contain, is lawful; it takes just the words of what the place holds, and nothing where
/// there is no such place.
pub fn place_reader<S: Symbol>()
    ensures { PlaceReaders S.Symbol.same }
{}

/// A place holds at most one content, up to the answers of calls.
pub fn one_content<S: Symbol>()
    ensures { OneContent S.Symbol.same }
{}

/// Each call has one answer, and leaves one state.
pub fn one_answer<S: Symbol>()
    ensures { OneAnswer S.Symbol.same }
{}
