// Postfix codes: which lists of codes are those of a model, and where any other is at fault.
#![tactic(auto)]

ghost use Rattle.std.specs.Prelude.{◌≡◌, ℕ, ◌≤◌, List, length};
ghost use Rattle.codes.specs.Tree.{Tree};
ghost use Rattle.codes.specs.Build.{step};
ghost use Rattle.codes.specs.Checked.{Checked};
ghost use Rattle.codes.specs.Counting.{Advances, Limited, OneMore};
ghost use Rattle.codes.specs.Theorems.{Building, OneAnswer, OneTree};

mod code;

pub use code::{Code, UnknownCode};
use faults::{Fault, Layer};

/// The most symbols that a model may have.
pub const MOST_SYMBOLS: usize = 64;

/// The most codes that a model may have.
pub const MOST_CODES: usize = 1280;

/// How many parts are made and not yet taken, and how many symbols are used.
#[derive(Clone, Copy)]
pub struct Tally {
    pub parts: usize,
    pub used: usize,
}

/// Takes one more code; `None` where it is above 6, or a part or a symbol is missing.
fn advance(tally: Tally, code: u8, symbols: usize) -> Option<Tally>
    requires { tally.parts ≤ 1280 }
    ensures size { OneMore result tally }
    ensures made { (s : List (Tree ℕ)) → length s ≡ tally.parts → Advances result (step symbols code s tally.used) }
{
    let Tally { parts, used } = tally;
    match Code::try_from(code).ok()? {
        Code::Empty => Some(Tally {
            parts: parts + 1,
            used,
        }),
        Code::Symbol if used < symbols => Some(Tally {
            parts: parts + 1,
            used: used + 1,
        }),
        Code::Then | Code::Either if parts >= 2 => Some(Tally {
            parts: parts - 1,
            used,
        }),
        Code::Optional | Code::Star | Code::Plus if parts >= 1 => Some(tally),
        _ => None,
    }
}

/// Whether a model may have so many symbols, and so many codes.
pub fn within_limits(codes: &[u8], symbols: usize) -> Result<(), Fault>
    ensures { Limited symbols codes.now result }
{
    if symbols > MOST_SYMBOLS {
        return Err(Fault::TooLarge {
            layer: Layer::Model,
            limit: MOST_SYMBOLS,
        });
    }
    if codes.len() > MOST_CODES {
        return Err(Fault::TooLarge {
            layer: Layer::Model,
            limit: MOST_CODES,
        });
    }
    Ok(())
}

/// Whether these are the codes of a model with so many symbols, within the limits.
pub fn check(codes: &[u8], symbols: usize) -> Result<(), Fault>
    ensures { Checked symbols codes.now result }
{
    within_limits(codes, symbols)?;
    let mut tally = Tally { parts: 0, used: 0 };
    for (i, code) in codes.iter().enumerate() {
        tally = advance(tally, *code, symbols).ok_or(Fault::Malformed { at: i })?;
    }
    if tally.parts == 1 && tally.used == symbols {
        Ok(())
    } else {
        Err(Fault::Malformed { at: codes.len() })
    }
}

/// The codes of a tree determine its shape, and with what stands at its symbols the tree.
pub fn one_tree<T>()
    ensures { OneTree T }
{}

/// Building and writing in postfix order are inverse.
pub fn building_inverts()
    ensures { Building }
{}

/// Each list of codes has one answer.
pub fn one_answer()
    ensures { OneAnswer }
{}
