// The marked words of content models, and the theorems on them that the tables of a model rest on.
#![tactic(auto)]

ghost use Rattle.language.specs.Theorems.{LocalWords, Parting, PositionsOccur, SetsExact, TreeOfCodes};

/// The tree that codes build is the one whose codes they are.
pub fn tree_of_codes()
    ensures { TreeOfCodes }
{}

/// A list of positions is a marked word exactly when the sets of the model allow it.
pub fn local_words()
    ensures { LocalWords }
{}

/// Every position from 1 to the number of symbols, and no other, occurs in some marked word.
pub fn positions_occur()
    ensures { PositionsOccur }
{}

/// The sets of a model are what begins, ends and follows in its marked words.
pub fn sets_exact()
    ensures { SetsExact }
{}

/// Two positions part exactly where both begin, or both follow one position.
pub fn parting()
    ensures { Parting }
{}
