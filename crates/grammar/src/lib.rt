// Content specifications by the productions of XML 1.0, and what holds of each text that is one.
#![tactic(auto)]

ghost use Rattle.std.specs.Prelude.{◌≡◌};
ghost use Rattle.codes.specs.Code.{code_number};
ghost use Rattle.grammar.specs.Grammar.{sign, code};
ghost use Rattle.grammar.specs.Theorems.{OneReading, CodesFit, GivesTree, GivesNames, OneOutcome};

use codes::Code;

/// Which sign joins the particles of a group.
#[derive(Clone, Copy, Debug, PartialEq, Eq)]
pub enum Chain {
    /// `|`
    Choice,
    /// `,`
    Seq,
}

impl Chain {
    /// The byte of the sign.
    pub fn sign(self) -> u8
        ensures { result ≡ sign self }
    {
        match self {
            Chain::Choice => b'|',
            Chain::Seq => b',',
        }
    }
}

impl From<Chain> for Code {
    ghost from_gives = { λ chain joined. code_number joined ≡ code chain };

    fn from(chain: Chain) -> Code {
        match chain {
            Chain::Choice => Code::Either,
            Chain::Seq => Code::Then,
        }
    }
}

/// A text has at most one list of codes and one of names, whatever the limits.
pub fn one_reading()
    ensures { OneReading }
{}

/// A model with at most 16 levels and 64 names has at most 1,280 codes.
pub fn codes_fit()
    ensures { CodesFit }
{}

/// The codes and the names of a model are those of a tree, which is the empty word alone or has none.
pub fn gives_tree()
    ensures { GivesTree }
{}

/// Where no name of a model has over 32 bytes, each is a name.
pub fn gives_names()
    ensures { GivesNames }
{}

/// The rules of reading give a text at most one outcome.
pub fn one_outcome()
    ensures { OneOutcome }
{}
