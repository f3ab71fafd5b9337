// Trials of words.
use super::desk::new_desk;
use super::rows::Row;
use faults::Fault;
use models::trials::Trial;
use std::alloc::Global;
use std::process::Abort;
use std::test::*;
use symbols::cue_rows::CueRow;
use symbols::name_rows::NameRow;

const YES: Trial = Trial::Yes;

fn no(longest: usize) -> Trial {
    Trial::No { longest }
}

/// `(a,b?)`, `(a|b)*` and `((a,b)+|c?)`, each in a place of its own.
fn tried<S: Row>(rt: &impl Abort, heap: Global) -> Result<(), Fail> {
    let mut desk = new_desk::<S>(heap)?;
    desk.loads(rt, 1, &[1, 1, 4, 2], b"ab", &[2, 0])?;
    desk.tells(rt, 1, b"", no(0))?;
    desk.tells(rt, 1, b"a", YES)?;
    desk.tells(rt, 1, b"ab", YES)?;
    desk.tells(rt, 1, b"abb", no(2))?;
    desk.tells(rt, 1, b"b", no(0))?;
    desk.tells(rt, 1, b"aa", no(1))?;
    desk.loads(rt, 15, &[1, 1, 3, 5], b"ab", &[3, 3])?;
    desk.tells(rt, 15, b"", YES)?;
    desk.tells(rt, 15, b"abba", YES)?;
    desk.tells(rt, 15, b"abca", no(2))?;
    desk.loads(rt, 0, &[1, 1, 2, 6, 1, 4, 3], b"abc", &[2, 1, 0])?;
    desk.tells(rt, 0, b"", YES)?;
    desk.tells(rt, 0, b"c", YES)?;
    desk.tells(rt, 0, b"abab", YES)?;
    desk.tells(rt, 0, b"aba", no(3))?;
    desk.tells(rt, 0, b"abc", no(2))?;
    desk.tells(rt, 0, b"cc", no(1))
}

/// `EMPTY` and `(a,x-t,b)`: a trial passes over no foreign symbol.
fn tried_bare<S: Row>(rt: &impl Abort, heap: Global) -> Result<(), Fail> {
    let mut desk = new_desk::<S>(heap)?;
    desk.loads(rt, 8, &[0], b"", &[])?;
    desk.tells(rt, 8, b"", YES)?;
    desk.tells(rt, 8, b"a", no(0))?;
    desk.tells(rt, 8, b"x", no(0))?;
    desk.loads(rt, 9, &[1, 1, 2, 1, 2], b"axb", &[2, 4, 0])?;
    desk.tells(rt, 9, b"axb", YES)?;
    desk.tells(rt, 9, b"ab", no(1))?;
    desk.tells(rt, 9, b"ax", no(2))
}

/// No such place, and an empty one.
fn refused<S: Row>(rt: &impl Abort, heap: Global) -> Result<(), Fail> {
    let mut desk = new_desk::<S>(heap)?;
    desk.refuses_trial(rt, 16, b"a", Fault::NoPlace { place: 16 })?;
    desk.refuses_trial(rt, 2, b"", Fault::Vacant { place: 2 })?;
    desk.loads(rt, 2, &[1], b"a", &[0])?;
    desk.tells(rt, 2, b"a", YES)?;
    desk.leaves(rt, 2)?;
    desk.refuses_trial(rt, 2, b"a", Fault::Vacant { place: 2 })
}

#[test]
fn names(rt: HostRuntime) -> Result<(), Fail> {
    tried::<NameRow>(&rt, rt.alloc())?;
    tried_bare::<NameRow>(&rt, rt.alloc())?;
    refused::<NameRow>(&rt, rt.alloc())
}

#[test]
fn cues(rt: HostRuntime) -> Result<(), Fail> {
    tried::<CueRow>(&rt, rt.alloc())?;
    tried_bare::<CueRow>(&rt, rt.alloc())?;
    refused::<CueRow>(&rt, rt.alloc())
}

/// Cues of a note on two channels are the same; the names `a` and `A` are not.
#[test]
fn channels(rt: HostRuntime) -> Result<(), Fail> {
    let heap = rt.alloc();
    let mut cues = new_desk::<CueRow>(heap)?;
    cues.loads(&rt, 1, &[1, 1, 4, 2], b"aB", &[2, 0])?;
    cues.tells(&rt, 1, b"Ab", YES)?;
    cues.tells(&rt, 1, b"AbB", no(2))?;
    let mut names = new_desk::<NameRow>(heap)?;
    names.loads(&rt, 1, &[1, 1, 4, 2], b"aB", &[2, 0])?;
    names.tells(&rt, 1, b"Ab", no(0))
}
