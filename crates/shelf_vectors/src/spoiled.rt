// Places whose cells are overwritten from outside.
use super::desk::{Desk, new_desk};
use super::rows::Row;
use faults::{Fault, Layer};
use models::trials::Trial;
use readers::Reader;
use std::alloc::Global;
use std::process::Abort;
use std::test::*;
use symbols::cue_rows::CueRow;
use symbols::name_rows::NameRow;

/// Letters and numbers to overwrite the cells of place 1 with.
const SPOILS: &[(u8, u64)] = &[(b'a', u64::MAX), (b'x', 0), (b'b', 3)];

/// `(a,b?)` in place 0 and `(a,b*)` in place 2 answer as they should.
fn exact<S: Row>(rt: &impl Abort, desk: &Desk<S>) -> Result<(), Fail> {
    desk.tells(rt, 0, b"ab", Trial::Yes)?;
    desk.tells(rt, 0, b"abb", Trial::No { longest: 2 })?;
    desk.tells(rt, 2, b"abb", Trial::Yes)?;
    desk.tells(rt, 2, b"abba", Trial::No { longest: 3 })?;
    let first = desk.reader(0);
    let third = desk.reader(2);
    desk.compares(rt, 0, &third, 12, None)?;
    desk.compares(rt, 2, &first, 12, Some(&[1, 2, 2]))
}

/// Calls on place 1, which held `(a,b)`, end, and are refused as before; trials and comparisons change neither list.
fn ends<S: Row>(rt: &impl Abort, desk: &mut Desk<S>) -> Result<(), Fail> {
    let before = desk.lists()?;
    judged(rt, desk)?;
    desk.refuses(rt, 1, &[1], b"a", Fault::Taken { place: 1 })?;
    assert!(rt; desk.kept(&before));
    Ok(())
}

/// Trials of place 1, and comparisons of it and with it: 12 pairs each.
fn judged<S: Row>(rt: &impl Abort, desk: &Desk<S>) -> Result<(), Fail> {
    assert!(rt; desk.trial(1, b"ab")?.is_ok());
    assert!(rt; desk.trial(1, b"")?.is_ok());
    let other = desk.reader(0);
    let spoilt = desk.reader(1);
    assert_eq!(rt; spoilt.states(), 3);
    desk.answers(rt, 1, &other, 12)?;
    desk.answers(rt, 0, &spoilt, 12)?;
    let short = Fault::ShortList {
        layer: Layer::Compare,
        cells: 24,
    };
    desk.refuses_lists(rt, 1, &other, 23, 12, short)
}

/// Place 1 is spoiled in three ways; then it is withdrawn, and loaded anew.
fn spoiled<S: Row>(rt: &impl Abort, heap: Global) -> Result<(), Fail> {
    let mut desk = new_desk::<S>(heap)?;
    desk.holds(rt, 0, &[1, 1, 4, 2], b"ab")?;
    desk.holds(rt, 1, &[1, 1, 2], b"ab")?;
    desk.holds(rt, 2, &[1, 1, 5, 2], b"ab")?;
    for (letter, number) in SPOILS {
        desk.spoil(*letter, *number);
        ends(rt, &mut desk)?;
        exact(rt, &desk)?;
    }
    desk.leaves(rt, 1)?;
    desk.loads(rt, 1, &[1, 1, 2], b"ab", &[2, 0])?;
    desk.tells(rt, 1, b"ab", Trial::Yes)?;
    desk.tells(rt, 1, b"aa", Trial::No { longest: 1 })?;
    exact(rt, &desk)
}

#[test]
fn names(rt: HostRuntime) -> Result<(), Fail> {
    spoiled::<NameRow>(&rt, rt.alloc())
}

#[test]
fn cues(rt: HostRuntime) -> Result<(), Fail> {
    spoiled::<CueRow>(&rt, rt.alloc())
}
