// The readers of places, bare and under layers.
use super::desk::new_desk;
use super::loads::sequence;
use super::rows::{Row, spelled};
use faults::Fault;
use readers::limit::Limit;
use readers::skip::Skip;
use readers::{Reader, takes};
use std::alloc::Global;
use std::process::Abort;
use std::test::*;
use symbols::cue_rows::CueRow;
use symbols::name_rows::NameRow;

/// Holds where it takes the word, or doesn't, as it should.
fn judges<S: Row, R: Reader<S>>(
    rt: &impl Abort,
    heap: Global,
    reader: &R,
    letters: &[u8],
    expected: bool,
) -> Result<(), Fail> {
    let word = spelled::<S>(heap, letters)?;
    assert_eq!(rt; takes(reader, &word), expected);
    Ok(())
}

/// `(a,b)`, and skip over it.
fn skipped<S: Row>(rt: &impl Abort, heap: Global) -> Result<(), Fail> {
    let mut desk = new_desk::<S>(heap)?;
    desk.holds(rt, 9, &[1, 1, 2], b"ab")?;
    let bare = desk.reader(9);
    assert_eq!(rt; bare.states(), 3);
    judges(rt, heap, &bare, b"ab", true)?;
    judges(rt, heap, &bare, b"axb", false)?;
    judges(rt, heap, &bare, b"a", false)?;
    let skip = Skip::new(desk.reader(9));
    assert_eq!(rt; skip.states(), 3);
    judges(rt, heap, &skip, b"ab", true)?;
    judges(rt, heap, &skip, b"axb", true)?;
    judges(rt, heap, &skip, b"xxaxbx", true)?;
    judges(rt, heap, &skip, b"ax", false)?;
    judges(rt, heap, &skip, b"abb", false)
}

/// `(a*)`, and limit 2 over it.
fn limited<S: Row>(rt: &impl Abort, heap: Global) -> Result<(), Fail> {
    let mut desk = new_desk::<S>(heap)?;
    desk.holds(rt, 0, &[1, 5], b"a")?;
    let bare = desk.reader(0);
    assert_eq!(rt; bare.states(), 2);
    judges(rt, heap, &bare, b"aaaaaaaaaa", true)?;
    let limit = Limit::new(desk.reader(0), 2);
    assert_eq!(rt; limit.limit(), 2);
    assert_eq!(rt; limit.states(), 6);
    judges(rt, heap, &limit, b"", true)?;
    judges(rt, heap, &limit, b"a", true)?;
    judges(rt, heap, &limit, b"aa", true)?;
    judges(rt, heap, &limit, b"aaa", false)?;
    judges(rt, heap, &limit, b"ab", false)
}

/// `(a)`: skip over limit 1 passes over foreign symbols before they are counted, limit 1 over skip counts them.
fn piled<S: Row>(rt: &impl Abort, heap: Global) -> Result<(), Fail> {
    let mut desk = new_desk::<S>(heap)?;
    desk.holds(rt, 3, &[1], b"a")?;
    judges(
        rt,
        heap,
        &Skip::new(Limit::new(desk.reader(3), 1)),
        b"axx",
        true,
    )?;
    judges(
        rt,
        heap,
        &Limit::new(Skip::new(desk.reader(3)), 1),
        b"axx",
        false,
    )
}

/// The reader of an empty place, and of no place, has one state and takes nothing.
fn empty<S: Row>(rt: &impl Abort, heap: Global) -> Result<(), Fail> {
    let mut desk = new_desk::<S>(heap)?;
    desk.holds(rt, 3, &[1, 5], b"a")?;
    desk.leaves(rt, 3)?;
    for place in [0, 3, 16, usize::MAX] {
        let reader = desk.reader(place);
        assert_eq!(rt; reader.states(), 1);
        assert_eq!(rt; reader.start(), 0);
        assert!(rt; !reader.is_ending(0));
        judges(rt, heap, &reader, b"", false)?;
        judges(rt, heap, &reader, b"a", false)?;
    }
    Ok(())
}

#[test]
fn names(rt: HostRuntime) -> Result<(), Fail> {
    skipped::<NameRow>(&rt, rt.alloc())?;
    limited::<NameRow>(&rt, rt.alloc())?;
    piled::<NameRow>(&rt, rt.alloc())?;
    empty::<NameRow>(&rt, rt.alloc())
}

#[test]
fn cues(rt: HostRuntime) -> Result<(), Fail> {
    skipped::<CueRow>(&rt, rt.alloc())?;
    limited::<CueRow>(&rt, rt.alloc())?;
    piled::<CueRow>(&rt, rt.alloc())?;
    empty::<CueRow>(&rt, rt.alloc())
}

/// `EMPTY` has one state, which is an ending.
#[test]
fn one_state(rt: HostRuntime) -> Result<(), Fail> {
    let heap = rt.alloc();
    let mut desk = new_desk::<NameRow>(heap)?;
    desk.holds(&rt, 5, &[0], b"")?;
    let reader = desk.reader(5);
    assert_eq!(rt; reader.states(), 1);
    judges(&rt, heap, &reader, b"", true)?;
    judges(&rt, heap, &reader, b"a", false)
}

/// Over 65 states a limit of 62 has 63 × 65 = 4,095 states, and one of 63 would have 4,160.
#[test]
fn greatest_limit(rt: HostRuntime) -> Result<(), Fail> {
    let heap = rt.alloc();
    let mut desk = new_desk::<NameRow>(heap)?;
    desk.holds(&rt, 15, &sequence(), &[b'a'; 64])?;
    let reader = desk.reader(15);
    assert_eq!(rt; reader.states(), 65);
    judges(&rt, heap, &reader, &[b'a'; 64], true)?;
    judges(&rt, heap, &reader, &[b'a'; 63], false)?;
    assert_eq!(rt; Limit::fit(&reader, 62), Ok(()));
    assert_eq!(rt; Limit::fit(&reader, 63), Err(Fault::Unfit { greatest: 62 }));
    let limit = Limit::new(reader, 63);
    assert_eq!(rt; limit.limit(), 62);
    assert_eq!(rt; limit.states(), 4095);
    Ok(())
}
