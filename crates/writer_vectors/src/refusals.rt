// What the writer refuses: codes, names, fault.
use super::run::refuses;
use faults::{Fault, Layer};
use std::test::Fail;
use symbols::name_rows::NameRow;
use text_writer::write;

#[rattlefmt::skip]
const REFUSALS: &[(&[u8], &[&[u8]], Fault)] = &[
    // codes that are no model's: no code, a lone `then`, two parts, a symbol left, a symbol missing, code 7
    (&[], &[], Fault::Malformed { at: 0 }),
    (&[2], &[], Fault::Malformed { at: 0 }),
    (&[1, 1], &[b"a", b"b"], Fault::Malformed { at: 2 }),
    (&[1], &[b"a", b"b"], Fault::Malformed { at: 1 }),
    (&[1, 1, 2], &[b"a"], Fault::Malformed { at: 1 }),
    (&[7], &[], Fault::Malformed { at: 0 }),
    (&[1, 7], &[b"a"], Fault::Malformed { at: 1 }),
    // code 0 among others, the first one
    (&[0, 4], &[], Fault::Unwritable { index: 0 }),
    (&[1, 0, 2], &[b"a"], Fault::Unwritable { index: 1 }),
    (&[1, 0, 2, 0, 3], &[b"a"], Fault::Unwritable { index: 1 }),
    // a row that is no name, the first one, after code 0
    (&[1], &[b"9a"], Fault::Unwritable { index: 0 }),
    (&[1, 1, 2], &[b"a", b"a b"], Fault::Unwritable { index: 1 }),
    (&[1, 1, 2], &[b"-", b"("], Fault::Unwritable { index: 0 }),
    (&[1, 0, 2], &[b"9a"], Fault::Unwritable { index: 1 }),
    // malformed codes come first
    (&[1, 0], &[b"9a"], Fault::Malformed { at: 2 }),
];

#[test]
fn refusals(rt: HostRuntime) -> Result<(), Fail> {
    for (codes, names, fault) in REFUSALS {
        refuses(&rt, codes, names, 64, *fault)?;
    }
    Ok(())
}

// Eighteen marks on a name nest seventeen brackets; the seventeenth stands at offset 16. No room is needed to say so.
#[test]
fn seventeen_levels(rt: HostRuntime) -> Result<(), Fail> {
    let mut codes = [4; 19];
    codes[0] = 1;
    refuses(&rt, &codes, &[b"a"], 0, Fault::TooDeep { at: 16 })
}

// `(a,b)` has five bytes, and `EMPTY` too.
#[test]
fn short_lists(rt: HostRuntime) -> Result<(), Fail> {
    let five = Fault::ShortList {
        layer: Layer::Text,
        cells: 5,
    };
    refuses(&rt, &[1, 1, 2], &[b"a", b"b"], 4, five)?;
    refuses(&rt, &[1, 1, 2], &[b"a", b"b"], 0, five)?;
    refuses(&rt, &[0], &[], 4, five)
}

// 65 symbols are too many, and are judged before 1,281 codes.
#[test]
fn too_large(rt: HostRuntime) {
    let rows = [NameRow::of(b"a"); 65];
    let codes = [0; 1281];
    let mut cells = [0; 8];
    let symbols = Fault::TooLarge {
        layer: Layer::Model,
        limit: 64,
    };
    let many = Fault::TooLarge {
        layer: Layer::Model,
        limit: 1280,
    };
    assert_eq!(rt; write(&codes, &rows, &mut cells), Err(symbols));
    assert_eq!(rt; write(&codes, &rows[..64], &mut cells), Err(many));
    assert_eq!(rt;
        write(&codes[..1280], &rows[..64], &mut cells),
        Err(Fault::Malformed { at: 1280 })
    );
}
