//! The verdict on two texts, for an editor written in C.
#![tactic(auto)]

ghost use Rattle.editor.specs.Answers.{Told, OneNumber};

mod including;
mod matching;
mod studying;

use including::includes;
use studying::Studied;

/// What a fault in the first text adds to its number.
const FIRST: u32 = 100;

/// What a fault in the second text adds to its number.
const SECOND: u32 = 200;

/// 0 where each word of the first text's model is one of the second's, and 1 where not. 100 and the fault's number where the first text gives
/// no model; else 200 and the fault's number where the second gives none.
// One number for both answers and faults, since C reads it: so a fault is returned as a number, and not by `?`.
#[unsafe(no_mangle)]
pub extern "C" fn fomurindu_verdict(first: &[u8], second: &[u8]) -> u32
    ensures { Told first.now second.now result }
{
    let writer = match Studied::of(first) {
        Ok(studied) => studied,
        Err(fault) => return FIRST + u32::from(fault.number()),
    };
    let reader = match Studied::of(second) {
        Ok(studied) => studied,
        Err(fault) => return SECOND + u32::from(fault.number()),
    };
    if includes(&writer, &reader) { 0 } else { 1 }
}

/// A theorem: two texts have one number.
pub fn one_number()
    ensures { OneNumber }
{}
