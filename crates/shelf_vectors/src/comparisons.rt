// Comparisons of what places hold with the readers of places, bare and under layers.
use super::desk::new_desk;
use super::rows::Row;
use faults::{Fault, Layer};
use readers::limit::Limit;
use readers::skip::Skip;
use std::alloc::Global;
use std::process::Abort;
use std::test::*;
use symbols::cue_rows::CueRow;
use symbols::name_rows::NameRow;

/// A model and another, each by its codes and letters; n + 1 times m + 2, where they have n and m positions; and the positions of the
/// first's least word that is no word of the other, if any.
struct Case {
    codes: &'static [u8],
    letters: &'static [u8],
    other_codes: &'static [u8],
    other_letters: &'static [u8],
    pairs: usize,
    missed: Option<&'static [u16]>,
}

#[rattlefmt::skip]
const CASES: &[Case] = &[
    // (a*,b*)* and (a|b)*, both ways
    Case { codes: &[1, 5, 1, 5, 2, 5], letters: b"ab", other_codes: &[1, 1, 3, 5], other_letters: b"ab", pairs: 12, missed: None },
    Case { codes: &[1, 1, 3, 5], letters: b"ab", other_codes: &[1, 5, 1, 5, 2, 5], other_letters: b"ab", pairs: 12, missed: None },
    // (a|b)* in (a*,b*): b a; and the other way
    Case { codes: &[1, 1, 3, 5], letters: b"ab", other_codes: &[1, 5, 1, 5, 2], other_letters: b"ab", pairs: 12, missed: Some(&[2, 1]) },
    Case { codes: &[1, 5, 1, 5, 2], letters: b"ab", other_codes: &[1, 1, 3, 5], other_letters: b"ab", pairs: 12, missed: None },
    // EMPTY in (a): the empty word; in (a?)
    Case { codes: &[0], letters: b"", other_codes: &[1], other_letters: b"a", pairs: 3, missed: Some(&[]) },
    Case { codes: &[0], letters: b"", other_codes: &[1, 4], other_letters: b"a", pairs: 3, missed: None },
    // (a,x-t,b) in (a,b): a x-t b; and the other way: a b
    Case { codes: &[1, 1, 2, 1, 2], letters: b"axb", other_codes: &[1, 1, 2], other_letters: b"ab", pairs: 16, missed: Some(&[1, 2, 3]) },
    Case { codes: &[1, 1, 2], letters: b"ab", other_codes: &[1, 1, 2, 1, 2], other_letters: b"axb", pairs: 15, missed: Some(&[1, 2]) },
    // (a,b*) in (a,b?): a b b; and the other way
    Case { codes: &[1, 1, 5, 2], letters: b"ab", other_codes: &[1, 1, 4, 2], other_letters: b"ab", pairs: 12, missed: Some(&[1, 2, 2]) },
    Case { codes: &[1, 1, 4, 2], letters: b"ab", other_codes: &[1, 1, 5, 2], other_letters: b"ab", pairs: 12, missed: None },
    // (a+) in (a): a a
    Case { codes: &[1, 6], letters: b"a", other_codes: &[1], other_letters: b"a", pairs: 6, missed: Some(&[1, 1]) },
    // (a|b) in (b|a); (b|a) in (a): b, which is position 1
    Case { codes: &[1, 1, 3], letters: b"ab", other_codes: &[1, 1, 3], other_letters: b"ba", pairs: 12, missed: None },
    Case { codes: &[1, 1, 3], letters: b"ba", other_codes: &[1], other_letters: b"a", pairs: 9, missed: Some(&[1]) },
    // (a,(b|c)) in (a,b): a c
    Case { codes: &[1, 1, 1, 3, 2], letters: b"abc", other_codes: &[1, 1, 2], other_letters: b"ab", pairs: 16, missed: Some(&[1, 3]) },
    // (a,b?,c) in (a,c): a b c
    Case { codes: &[1, 1, 4, 2, 1, 2], letters: b"abc", other_codes: &[1, 1, 2], other_letters: b"ac", pairs: 16, missed: Some(&[1, 2, 3]) },
    // (a,a*) in (a*)
    Case { codes: &[1, 1, 5, 2], letters: b"aa", other_codes: &[1, 5], other_letters: b"a", pairs: 9, missed: None },
];

/// A list one cell short is refused, the work list first; lists that are just long enough have the answer.
fn compared<S: Row>(rt: &impl Abort, heap: Global, case: &Case) -> Result<(), Fail> {
    let mut desk = new_desk::<S>(heap)?;
    desk.holds(rt, 2, case.codes, case.letters)?;
    desk.holds(rt, 11, case.other_codes, case.other_letters)?;
    let reader = desk.reader(11);
    let pairs = case.pairs;
    assert!(rt; (1..=256).contains(&pairs));
    let work_short = Fault::ShortList {
        layer: Layer::Compare,
        cells: 2 * pairs,
    };
    let word_short = Fault::ShortList {
        layer: Layer::Compare,
        cells: pairs,
    };
    desk.refuses_lists(rt, 2, &reader, 2 * pairs - 1, pairs - 1, work_short)?;
    desk.refuses_lists(rt, 2, &reader, 2 * pairs, pairs - 1, word_short)?;
    desk.compares(rt, 2, &reader, pairs, case.missed)
}

#[test]
fn names(rt: HostRuntime) -> Result<(), Fail> {
    for case in CASES {
        compared::<NameRow>(&rt, rt.alloc(), case)?;
    }
    Ok(())
}

#[test]
fn cues(rt: HostRuntime) -> Result<(), Fail> {
    for case in CASES {
        compared::<CueRow>(&rt, rt.alloc(), case)?;
    }
    Ok(())
}

/// `(a,x-t,b)` in skip over `(a,b)`: included.
fn skipped<S: Row>(rt: &impl Abort, heap: Global) -> Result<(), Fail> {
    let mut desk = new_desk::<S>(heap)?;
    desk.holds(rt, 0, &[1, 1, 2, 1, 2], b"axb")?;
    desk.holds(rt, 1, &[1, 1, 2], b"ab")?;
    let skip = Skip::new(desk.reader(1));
    desk.compares(rt, 0, &skip, 16, None)
}

/// `(a*)` in limit 2 over itself, which has 6 states: 14 pairs, and a a a, position 1 thrice.
fn limited<S: Row>(rt: &impl Abort, heap: Global) -> Result<(), Fail> {
    let mut desk = new_desk::<S>(heap)?;
    desk.holds(rt, 7, &[1, 5], b"a")?;
    let limit = Limit::new(desk.reader(7), 2);
    let short = Fault::ShortList {
        layer: Layer::Compare,
        cells: 28,
    };
    desk.refuses_lists(rt, 7, &limit, 27, 14, short)?;
    desk.compares(rt, 7, &limit, 14, Some(&[1, 1, 1]))
}

/// `(a)` beside an empty place, whose reader takes nothing: a.
fn beside_nothing<S: Row>(rt: &impl Abort, heap: Global) -> Result<(), Fail> {
    let mut desk = new_desk::<S>(heap)?;
    desk.holds(rt, 7, &[1], b"a")?;
    let nothing = desk.reader(8);
    desk.compares(rt, 7, &nothing, 4, Some(&[1]))
}

/// An empty place and no place are refused before the lists are looked at.
fn nothing_to_compare<S: Row>(rt: &impl Abort, heap: Global) -> Result<(), Fail> {
    let mut desk = new_desk::<S>(heap)?;
    desk.holds(rt, 7, &[1], b"a")?;
    let reader = desk.reader(7);
    desk.refuses_lists(rt, 8, &reader, 0, 0, Fault::Vacant { place: 8 })?;
    desk.refuses_lists(rt, 16, &reader, 0, 0, Fault::NoPlace { place: 16 })
}

#[test]
fn layered_names(rt: HostRuntime) -> Result<(), Fail> {
    skipped::<NameRow>(&rt, rt.alloc())?;
    limited::<NameRow>(&rt, rt.alloc())?;
    beside_nothing::<NameRow>(&rt, rt.alloc())?;
    nothing_to_compare::<NameRow>(&rt, rt.alloc())
}

#[test]
fn layered_cues(rt: HostRuntime) -> Result<(), Fail> {
    skipped::<CueRow>(&rt, rt.alloc())?;
    limited::<CueRow>(&rt, rt.alloc())?;
    beside_nothing::<CueRow>(&rt, rt.alloc())?;
    nothing_to_compare::<CueRow>(&rt, rt.alloc())
}

/// `(a,B)` and `(A,b)`: the same words of cues, on other channels; as names, `a B` is missed.
#[test]
fn channels(rt: HostRuntime) -> Result<(), Fail> {
    let heap = rt.alloc();
    let mut cues = new_desk::<CueRow>(heap)?;
    cues.holds(&rt, 0, &[1, 1, 2], b"aB")?;
    cues.holds(&rt, 1, &[1, 1, 2], b"Ab")?;
    let reader = cues.reader(1);
    cues.compares(&rt, 0, &reader, 12, None)?;
    let mut names = new_desk::<NameRow>(heap)?;
    names.holds(&rt, 0, &[1, 1, 2], b"aB")?;
    names.holds(&rt, 1, &[1, 1, 2], b"Ab")?;
    let reader = names.reader(1);
    names.compares(&rt, 0, &reader, 12, Some(&[1, 2]))
}
