// Loads and withdrawals that are refused, in the order of the faults.
use super::desk::new_desk;
use super::rows::Row;
use faults::{Fault, Layer};
use shelf::Shelf;
use std::alloc::Global;
use std::process::Abort;
use std::test::*;
use symbols::cue_rows::CueRow;
use symbols::name_rows::NameRow;

const MANY_SYMBOLS: Fault = Fault::TooLarge {
    layer: Layer::Model,
    limit: 64,
};

const MANY_CODES: Fault = Fault::TooLarge {
    layer: Layer::Model,
    limit: 1280,
};

/// A model by its codes and letters, and why it is refused.
struct Refusal {
    codes: &'static [u8],
    letters: &'static [u8],
    fault: Fault,
}

#[rattlefmt::skip]
const REFUSALS: &[Refusal] = &[
    // codes that are those of no model
    Refusal { codes: &[], letters: b"", fault: Fault::Malformed { at: 0 } },
    Refusal { codes: &[1, 7], letters: b"a", fault: Fault::Malformed { at: 1 } },
    Refusal { codes: &[1, 5, 2], letters: b"a", fault: Fault::Malformed { at: 2 } },
    Refusal { codes: &[1, 1, 2], letters: b"a", fault: Fault::Malformed { at: 1 } },
    Refusal { codes: &[1, 4], letters: b"ab", fault: Fault::Malformed { at: 2 } },
    // two parts are left over, though the first two symbols would compete
    Refusal { codes: &[1, 1, 3, 1], letters: b"aab", fault: Fault::Malformed { at: 4 } },
    // (a*,a,a*): positions 1 and 2 both begin
    Refusal { codes: &[1, 5, 1, 2, 1, 5, 2], letters: b"aaa", fault: Fault::Ambiguous { first: 1, second: 2 } },
    // ((a,b?)*,b): positions 2 and 3 both follow 1
    Refusal { codes: &[1, 1, 4, 2, 5, 1, 2], letters: b"abb", fault: Fault::Ambiguous { first: 2, second: 3 } },
];

/// 65 symbols are too many, whatever the codes are, and 1,281 codes, whatever they are; neither counts where the place is taken.
fn too_large<S: Row>(rt: &impl Abort, heap: Global) -> Result<(), Fail> {
    let mut desk = new_desk::<S>(heap)?;
    desk.refuses(rt, 0, &[1], &[b'a'; 65], MANY_SYMBOLS)?;
    desk.refuses(rt, 0, &[7; 1281], &[b'a'; 65], MANY_SYMBOLS)?;
    desk.refuses(rt, 0, &[7; 1281], b"a", MANY_CODES)?;
    desk.holds(rt, 0, &[1], b"a")?;
    desk.refuses(rt, 0, &[7; 1281], &[b'a'; 65], Fault::Taken { place: 0 })
}

/// Each of these models is refused in an empty place; in a taken one, for that, and where there is no place, for that.
fn refused<S: Row>(rt: &impl Abort, heap: Global) -> Result<(), Fail> {
    let mut desk = new_desk::<S>(heap)?;
    desk.loads(rt, 4, &[1, 1, 4, 2], b"ab", &[2, 0])?;
    for refusal in REFUSALS {
        desk.refuses(rt, 3, refusal.codes, refusal.letters, refusal.fault)?;
        desk.refuses(
            rt,
            4,
            refusal.codes,
            refusal.letters,
            Fault::Taken { place: 4 },
        )?;
        desk.refuses(
            rt,
            16,
            refusal.codes,
            refusal.letters,
            Fault::NoPlace { place: 16 },
        )?;
    }
    desk.loads(rt, 3, &[1, 1, 5, 2], b"aa", &[2, 2])
}

#[test]
fn names(rt: HostRuntime) -> Result<(), Fail> {
    too_large::<NameRow>(&rt, rt.alloc())?;
    refused::<NameRow>(&rt, rt.alloc())
}

#[test]
fn cues(rt: HostRuntime) -> Result<(), Fail> {
    too_large::<CueRow>(&rt, rt.alloc())?;
    refused::<CueRow>(&rt, rt.alloc())
}

/// `(a|A)`: the cues of a note on two channels are the same, so they compete; as names `a` and `A` are two.
#[test]
fn channels(rt: HostRuntime) -> Result<(), Fail> {
    let heap = rt.alloc();
    let mut cues = new_desk::<CueRow>(heap)?;
    cues.refuses(
        &rt,
        0,
        &[1, 1, 3],
        b"aA",
        Fault::Ambiguous {
            first: 1,
            second: 2,
        },
    )?;
    let mut names = new_desk::<NameRow>(heap)?;
    names.loads(&rt, 0, &[1, 1, 3], b"aA", &[0, 0])
}

/// Loads `(a)` into a place over these lists.
fn load_over(
    shelf: &mut Shelf,
    symbols: &mut [NameRow],
    numbers: &mut [u64],
    place: usize,
) -> Result<(), Fault> {
    shelf.load(symbols, numbers, place, &[1], &[NameRow::of(b"a")])
}

/// The same, which must be refused: no cell changes.
fn refuses_over(
    rt: &impl Abort,
    shelf: &mut Shelf,
    symbols: &mut [NameRow],
    numbers: &mut [u64],
    place: usize,
    fault: Fault,
) -> Result<(), Fail> {
    assert_eq!(rt; load_over(shelf, symbols, numbers, place), Err(fault));
    let blank = NameRow::of(b"z");
    assert!(rt; symbols.iter().all(|symbol| *symbol == blank));
    assert!(rt; numbers.iter().all(|number| *number == 999));
    Ok(())
}

/// Place 1 has the cells from 64 up to 128: a list of 127 doesn't have them, so there is no such place.
#[test]
fn short_lists(rt: HostRuntime) -> Result<(), Fail> {
    let none = Fault::NoPlace { place: 1 };
    let mut shelf = Shelf::new();
    refuses_over(
        &rt,
        &mut shelf,
        &mut [NameRow::of(b"z"); 127],
        &mut [999; 128],
        1,
        none,
    )?;
    refuses_over(
        &rt,
        &mut shelf,
        &mut [NameRow::of(b"z"); 128],
        &mut [999; 127],
        1,
        none,
    )?;
    refuses_over(&rt, &mut shelf, &mut [], &mut [], 1, none)?;
    let mut symbols = [NameRow::of(b"z"); 128];
    let mut numbers = [999; 128];
    assert_eq!(rt;
        load_over(&mut shelf, &mut symbols, &mut numbers, 1),
        Ok(())
    );
    assert_eq!(rt; numbers[64], 0);
    assert_eq!(rt; numbers[65], 999);
    Ok(())
}

/// A taken place whose cells a list doesn't have is no place: refused for that, and not for being taken.
#[test]
fn taken_beyond_lists(rt: HostRuntime) -> Result<(), Fail> {
    let mut shelf = Shelf::new();
    let mut symbols = [NameRow::of(b"z"); 128];
    let mut numbers = [999; 128];
    assert_eq!(rt;
        load_over(&mut shelf, &mut symbols, &mut numbers, 1),
        Ok(())
    );
    let taken = Err(Fault::Taken { place: 1 });
    assert_eq!(rt; load_over(&mut shelf, &mut symbols, &mut numbers, 1), taken);
    let none = Fault::NoPlace { place: 1 };
    refuses_over(
        &rt,
        &mut shelf,
        &mut [NameRow::of(b"z"); 127],
        &mut [999; 127],
        1,
        none,
    )?;
    assert_eq!(rt; shelf.withdraw(&symbols, &[999; 127], 1), Err(none));
    assert_eq!(rt; shelf.withdraw(&symbols, &numbers, 1), Ok(()));
    Ok(())
}

/// A withdrawal leaves both lists, and the place can be loaded anew.
fn withdrawn<S: Row>(rt: &impl Abort, heap: Global) -> Result<(), Fail> {
    let mut desk = new_desk::<S>(heap)?;
    assert_eq!(rt; desk.withdraw(16), Err(Fault::NoPlace { place: 16 }));
    assert_eq!(rt;
        desk.withdraw(usize::MAX),
        Err(Fault::NoPlace { place: usize::MAX })
    );
    assert_eq!(rt; desk.withdraw(6), Err(Fault::Vacant { place: 6 }));
    desk.loads(rt, 6, &[1, 1, 4, 2], b"ab", &[2, 0])?;
    desk.loads(rt, 7, &[1, 1, 5, 2], b"aa", &[2, 2])?;
    desk.leaves(rt, 6)?;
    assert_eq!(rt; desk.withdraw(6), Err(Fault::Vacant { place: 6 }));
    desk.loads(rt, 6, &[1], b"c", &[0])?;
    desk.refuses(rt, 7, &[1], b"c", Fault::Taken { place: 7 })
}

#[test]
fn withdrawn_names(rt: HostRuntime) -> Result<(), Fail> {
    withdrawn::<NameRow>(&rt, rt.alloc())
}

#[test]
fn withdrawn_cues(rt: HostRuntime) -> Result<(), Fail> {
    withdrawn::<CueRow>(&rt, rt.alloc())
}
