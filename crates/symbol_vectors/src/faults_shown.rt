// How faults are printed.
use faults::{Fault, Layer, Numbered};
use std::test::Fail;

// Each fault with its layer, and without it.
#[rattlefmt::skip]
const SHOWN: &[(Fault, &str, &str)] = &[
    (Fault::StrangeByte { at: 0 }, "text 1 at 0", "1 at 0"),
    (Fault::Unexpected { at: 11 }, "text 2 at 11", "2 at 11"),
    (Fault::Ambiguous { first: 1, second: 2 }, "model 7 at 1 and 2", "7 at 1 and 2"),
    (Fault::NoPlace { place: 16 }, "shelf 8 at 16", "8 at 16"),
    (Fault::Unfit { greatest: 62 }, "reader 12 at 62", "12 at 62"),
    (Fault::WrongBook { entry: 0 }, "book 13 at 0", "13 at 0"),
    (Fault::WrongCue { byte: 1 }, "cue 15 at 1", "15 at 1"),
    (Fault::TooLarge { layer: Layer::Book, limit: 16384 }, "book 5 at 16384", "5 at 16384"),
    (Fault::ShortList { layer: Layer::Compare, cells: 28 }, "compare 11 at 28", "11 at 28"),
    (Fault::ShortList { layer: Layer::Line, cells: 28 }, "line 11 at 28", "11 at 28"),
];

#[test]
fn shown(rt: HostRuntime) -> Result<(), Fail> {
    let heap = rt.alloc();
    for &(fault, whole, numbered) in SHOWN {
        assert!(rt; format!(in heap; "{fault}")?.as_str() == whole);
        assert!(rt; format!(in heap; "{}", Numbered(fault))?.as_str() == numbered);
    }
    Ok(())
}
