// The first two positions that compete, or none.
use super::run::{ambiguous, competes};
use std::test::Fail;
use symbols::cue_rows::CueRow;
use symbols::name_rows::NameRow;

/// `(a*,a,a*)`: positions 1 and 2 compete, since both begin.
#[test]
fn three_stars(rt: HostRuntime) -> Result<(), Fail> {
    let a = NameRow::of(b"a");
    ambiguous(&rt, &[1, 5, 1, 2, 1, 5, 2], &[a, a, a], 1, 2)
}

/// `((a,b?)*,b)`: 2 and 3 compete, since both follow 1.
#[test]
fn loop_tail(rt: HostRuntime) -> Result<(), Fail> {
    let a = NameRow::of(b"a");
    let b = NameRow::of(b"b");
    ambiguous(&rt, &[1, 1, 4, 2, 5, 1, 2], &[a, b, b], 2, 3)
}

/// `((a|b)|(b|a))`: 1 and 4 compete and 2 and 3 do; the pair with the lesser first comes first.
#[test]
fn least_first(rt: HostRuntime) -> Result<(), Fail> {
    let a = NameRow::of(b"a");
    let b = NameRow::of(b"b");
    ambiguous(&rt, &[1, 1, 3, 1, 1, 3, 3], &[a, b, b, a], 1, 4)
}

/// `((a|a)|a)`: of the pairs with position 1, that with the lesser second.
#[test]
fn least_second(rt: HostRuntime) -> Result<(), Fail> {
    let a = NameRow::of(b"a");
    ambiguous(&rt, &[1, 1, 3, 1, 3], &[a, a, a], 1, 2)
}

/// `(a,a*)`: none, since only 1 begins, and only 2 follows.
#[test]
fn one_way(rt: HostRuntime) -> Result<(), Fail> {
    let a = NameRow::of(b"a");
    competes(&rt, &[1, 1, 5, 2], &[a, a], None)
}

/// Cues are the same where the high half of the status and the data byte are: 0x90 and 0x95 with 60.
#[test]
fn cues(rt: HostRuntime) -> Result<(), Fail> {
    let on = CueRow {
        status: 0x90,
        datum: 60,
    };
    let other = CueRow {
        status: 0x95,
        datum: 60,
    };
    let higher = CueRow {
        status: 0x90,
        datum: 61,
    };
    ambiguous(&rt, &[1, 1, 3], &[on, other], 1, 2)?;
    competes(&rt, &[1, 1, 3], &[on, higher], None)
}
