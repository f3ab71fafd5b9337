// Forty loads and withdrawals over one shelf.
use super::desk::{Desk, new_desk};
use super::rows::Row;
use faults::Fault;
use models::trials::Trial;
use std::alloc::Global;
use std::process::Abort;
use std::test::*;
use symbols::cue_rows::CueRow;
use symbols::name_rows::NameRow;

/// A model by its codes and letters, its followers, a word of it, and one that is none, with its longest beginning that begins one.
struct Model {
    codes: &'static [u8],
    letters: &'static [u8],
    followers: &'static [u64],
    word: &'static [u8],
    other: &'static [u8],
    longest: usize,
}

#[rattlefmt::skip]
const MODELS: &[Model; 4] = &[
    // (a,b?)
    Model { codes: &[1, 1, 4, 2], letters: b"ab", followers: &[2, 0], word: b"ab", other: b"abb", longest: 2 },
    // (b,a*)
    Model { codes: &[1, 1, 5, 2], letters: b"ba", followers: &[2, 2], word: b"baa", other: b"aba", longest: 0 },
    // (a|(b,c))+
    Model { codes: &[1, 1, 1, 2, 3, 6], letters: b"abc", followers: &[3, 4, 3], word: b"bcabc", other: b"abcac", longest: 4 },
    // (c?)
    Model { codes: &[1, 4], letters: b"c", followers: &[0], word: b"", other: b"cc", longest: 1 },
];

/// Whether the place answers as the model does.
fn answers<S: Row>(
    rt: &impl Abort,
    desk: &Desk<S>,
    place: usize,
    model: &Model,
) -> Result<(), Fail> {
    desk.tells(rt, place, model.word, Trial::Yes)?;
    desk.tells(
        rt,
        place,
        model.other,
        Trial::No {
            longest: model.longest,
        },
    )
}

/// Round k loads model k mod 4 into place k mod 15, then withdraws that of the round before; place 15 keeps `(a,b?)` all along.
fn turns<S: Row>(rt: &impl Abort, heap: Global) -> Result<(), Fail> {
    let mut desk = new_desk::<S>(heap)?;
    desk.loads(
        rt,
        15,
        MODELS[0].codes,
        MODELS[0].letters,
        MODELS[0].followers,
    )?;
    // k is the number of a round.
    for k in 0..40 {
        turn(rt, &mut desk, k)?;
    }
    Ok(())
}

fn turn<S: Row>(rt: &impl Abort, desk: &mut Desk<S>, k: usize) -> Result<(), Fail> {
    let place = k % 15;
    let model = &MODELS[k % 4];
    desk.refuses_trial(rt, place, model.word, Fault::Vacant { place })?;
    desk.loads(rt, place, model.codes, model.letters, model.followers)?;
    desk.refuses(
        rt,
        place,
        model.codes,
        model.letters,
        Fault::Taken { place },
    )?;
    answers(rt, desk, place, model)?;
    answers(rt, desk, 15, &MODELS[0])?;
    if k >= 1 {
        leave(rt, desk, (k - 1) % 15, &MODELS[(k - 1) % 4])?;
        answers(rt, desk, place, model)?;
    }
    Ok(())
}

/// Withdraws a model that still answers as it should.
fn leave<S: Row>(
    rt: &impl Abort,
    desk: &mut Desk<S>,
    place: usize,
    model: &Model,
) -> Result<(), Fail> {
    answers(rt, desk, place, model)?;
    desk.leaves(rt, place)?;
    desk.refuses_trial(rt, place, model.word, Fault::Vacant { place })
}

#[test]
fn names(rt: HostRuntime) -> Result<(), Fail> {
    turns::<NameRow>(&rt, rt.alloc())
}

#[test]
fn cues(rt: HostRuntime) -> Result<(), Fail> {
    turns::<CueRow>(&rt, rt.alloc())
}
