// One call, and lists of calls.
ghost use Rattle.std.specs.Prelude.{◌≡◌, map, length, nat_le};
ghost use Rattle.std.specs.Result.{is_ok};
ghost use Rattle.shelf.specs.Places.{state};
ghost use Rattle.comparison.specs.Runs.{request, memory, lists, Did, Replays, ReplaysNew};

use crate::calls::{Answer, Call, TooFewAnswers};
use crate::comparing::compare;
use faults::Fault;
use readers::Reader;
use shelf::Shelf;
use symbols::Symbol;

// The shelf and the four lists are lent one by one, since the caller keeps each, be it a program or one in C: these calls write to all
// five, and a single comparison reads the shelf and its two lists and writes only to the work and the word.

/// Makes one call. Where it is refused, it changes nothing.
pub fn call<S: Symbol, R: Reader<S>>(
    shelf: &mut Shelf,
    symbols: &mut [S],
    numbers: &mut [u64],
    work: &mut [u32],
    word: &mut [u16],
    call: &Call<S, R>,
) -> Result<Answer, Fault>
    ensures { Did S.Symbol.same (memory (state shelf.old symbols.old numbers.old) work.old word.old) (request R.Reader.table call.now) result (memory (state shelf.new symbols.new numbers.new) work.new word.new) }
{
    match call {
        Call::Load {
            place,
            codes,
            symbols: model,
        } => {
            shelf.load(symbols, numbers, *place, codes, model)?;
            Ok(Answer::Done)
        }
        Call::Withdraw { place } => {
            shelf.withdraw(symbols, numbers, *place)?;
            Ok(Answer::Done)
        }
        Call::Trial { place, word: tried } => {
            Ok(shelf.trial(symbols, numbers, *place, tried)?.into())
        }
        Call::Compare { place, reader } => Ok(compare(
            shelf, symbols, numbers, *place, *reader, work, word,
        )?.into())
    }
}

/// Makes the calls one after the other, and writes their answers to the front of `answers`. Refused, with nothing done, where
/// `answers` has fewer cells than there are calls.
pub fn replay<S: Symbol, R: Reader<S>>(
    shelf: &mut Shelf,
    symbols: &mut [S],
    numbers: &mut [u64],
    work: &mut [u32],
    word: &mut [u16],
    calls: &[Call<S, R>],
    answers: &mut [Result<Answer, Fault>],
) -> Result<(), TooFewAnswers>
    ensures test { is_ok result ≡ nat_le (length calls.now) (length answers.old) }
    ensures replays { Replays S.Symbol.same result (memory (state shelf.old symbols.old numbers.old) work.old word.old) (map (request R.Reader.table) calls.now) answers.old answers.new (memory (state shelf.new symbols.new numbers.new) work.new word.new) }
{
    if calls.len() > answers.len() {
        return Err(TooFewAnswers);
    }
    // Written by index: of a list that is zipped with another and written through, a proof knows nothing but the length.
    for (i, asked) in calls.iter().enumerate() {
        answers[i] = call(shelf, symbols, numbers, work, word, asked);
    }
    Ok(())
}

/// Makes the calls on a new shelf, and returns it: each of its places holds what a plain shelf of optional models has there
/// after the same calls, and the answers are that shelf's. Refused, with nothing done, where `answers` has fewer cells than there
/// are calls.
pub fn replay_new<S: Symbol, R: Reader<S>>(
    symbols: &mut [S],
    numbers: &mut [u64],
    work: &mut [u32],
    word: &mut [u16],
    calls: &[Call<S, R>],
    answers: &mut [Result<Answer, Fault>],
) -> Result<Shelf, TooFewAnswers>
    ensures { ReplaysNew S.Symbol.same result (lists symbols.old numbers.old work.old word.old) (map (request R.Reader.table) calls.now) answers.old answers.new (lists symbols.new numbers.new work.new word.new) }
{
    let mut shelf = Shelf::new();
    replay(&mut shelf, symbols, numbers, work, word, calls, answers)?;
    Ok(shelf)
}
