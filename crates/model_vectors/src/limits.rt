// Models at the limits, and one past them.
use super::run::{has_sets, refuses};
use faults::{Fault, Layer};
use models::tables::Sets;
use std::test::Fail;

/// 64 symbols, then 63 `then`.
fn sequence_codes() -> [u8; 127] {
    let mut codes = [1; 127];
    codes[64..].fill(2);
    codes
}

/// Each of 64 positions followed by the next.
fn sequence_rows() -> [u64; 64] {
    let mut rows = [0; 64];
    for (i, row) in rows[..63].iter_mut().enumerate() {
        *row = 1 << (i + 1);
    }
    rows
}

/// 64 symbols, one then the next: the first begins, the last ends, and each is followed by the next.
#[test]
fn most_symbols(rt: HostRuntime) -> Result<(), Fail> {
    let expected = Sets {
        nullable: false,
        first: 1,
        last: 1 << 63,
    };
    has_sets(&rt, &sequence_codes(), expected, &sequence_rows())
}

/// A 65th symbol is refused, and before the number of codes is looked at.
#[test]
fn too_many_symbols(rt: HostRuntime) {
    let fault = Fault::TooLarge {
        layer: Layer::Model,
        limit: 64,
    };
    refuses(&rt, &[1], 65, fault);
    refuses(&rt, &[1; 1281], 65, fault);
}

/// 640 empty words, 639 `then`, and a '?'.
fn empty_codes() -> [u8; 1280] {
    let mut codes = [0; 1280];
    codes[640..1279].fill(2);
    codes[1279] = 4;
    codes
}

/// 1,280 codes, of which 640 parts stand before the first is taken.
#[test]
fn most_codes(rt: HostRuntime) -> Result<(), Fail> {
    let expected = Sets {
        nullable: true,
        first: 0,
        last: 0,
    };
    has_sets(&rt, &empty_codes(), expected, &[])
}

/// 1,281 codes are refused: the empty word under 1,280 '?'.
#[test]
fn too_many_codes(rt: HostRuntime) {
    let mut codes = [4; 1281];
    codes[0] = 0;
    let fault = Fault::TooLarge {
        layer: Layer::Model,
        limit: 1280,
    };
    refuses(&rt, &codes, 0, fault);
}
