// Books read and made.
use book::making::make;
use book::reading::Book;
use faults::{Fault, Layer};
use std::test::Fail;

/// Two bodies of 6 and 8 bytes: the first begins at 1 + 4 * 2 = 9, the second at 15, and the book ends at 23.
const TWO: &[u8; 23] = b"\x02\x09\x00\x06\x00\x0f\x00\x08\x00(a,b?)(a,b,c?)";

fn refused(bytes: &[u8], fault: Fault) -> bool {
    Book::read(bytes).is_err_and(|found| found == fault)
}

fn wrong(bytes: &[u8], entry: usize) -> bool {
    refused(bytes, Fault::WrongBook { entry })
}

/// The first n bytes alone are wrong at the entry.
fn wrong_cut(bytes: &[u8], n: usize, entry: usize) -> bool {
    bytes.get(..n).is_some_and(|cut| wrong(cut, entry))
}

fn has_body(bytes: &[u8], k: usize, expected: &[u8]) -> bool {
    Book::read(bytes).is_ok_and(|book| book.body(k).is_some_and(|body| body == expected))
}

fn has_bodies(bytes: &[u8], count: usize) -> bool {
    Book::read(bytes).is_ok_and(|book| book.count() == count && book.body(count).is_none())
}

/// What `make` writes into 32 cells that hold 7s is `expected`, and then 7s.
fn made(bodies: &[&[u8]], expected: &[u8; 32]) -> bool {
    let mut out = [7; 32];
    make(bodies, &mut out).is_ok() && out == *expected
}

/// `make` refuses the bodies in `cells` cells that hold 7s, and leaves the 7s.
fn unmade(bodies: &[&[u8]], cells: usize, fault: Fault) -> bool {
    let mut out = [7; 32];
    let found = make(bodies, &mut out[..cells.min(32)]);
    found.is_err_and(|other| other == fault) && out == [7; 32]
}

#[test]
fn two_bodies(rt: HostRuntime) {
    assert!(rt; has_bodies(TWO, 2));
    assert!(rt; has_body(TWO, 0, b"(a,b?)"));
    assert!(rt; has_body(TWO, 1, b"(a,b,c?)"));
}

/// Up to 4 bytes the first entry is cut, or the count is missing; up to 14 the first body is cut, and from 15 on the second.
#[test]
fn cut_at_every_byte(rt: HostRuntime) {
    // n is a length.
    for n in 0..23 {
        assert!(rt; wrong_cut(TWO, n, if n < 15 { 0 } else { 1 }));
    }
}

#[test]
fn left_over(rt: HostRuntime) {
    assert!(rt; wrong(b"\x02\x09\x00\x06\x00\x0f\x00\x08\x00(a,b?)(a,b,c?) ", 2));
    assert!(rt; wrong(b"\x01\x05\x00\x00\x00 ", 1));
}

#[test]
fn bad_count(rt: HostRuntime) -> Result<(), Fail> {
    assert!(rt; wrong(b"", 0));
    assert!(rt; wrong(b"\x00", 0));
    assert!(rt; wrong(b"\x11", 0));
    assert!(rt; wrong(b"\x00\x05\x00\x00\x00", 0));
    let mut bytes = [0; 69];
    bytes[0] = 17;
    for offset in bytes[1..].iter_mut().step_by(4) {
        *offset = 69;
    }
    assert!(rt; wrong(&bytes, 0));
    Ok(())
}

#[test]
fn sixteen_empty_bodies(rt: HostRuntime) -> Result<(), Fail> {
    let mut bytes = [0; 65];
    bytes[0] = 16;
    for offset in bytes[1..].iter_mut().step_by(4) {
        *offset = 65;
    }
    assert!(rt; has_bodies(&bytes, 16));
    assert!(rt; has_body(&bytes, 15, b""));
    Ok(())
}

#[test]
fn misplaced(rt: HostRuntime) {
    assert!(rt; wrong(b"\x02\x0a\x00\x06\x00\x0f\x00\x08\x00(a,b?)(a,b,c?)", 0));
    assert!(rt; wrong(b"\x02\x09\x00\x06\x00\x10\x00\x08\x00(a,b?)(a,b,c?)", 1));
    assert!(rt; wrong(b"\x02\x09\x00\x06\x00\x0f\x01\x08\x00(a,b?)(a,b,c?)", 1));
    assert!(rt; wrong(b"\x02\x09\x00\x06\x00\x0f\x00\x09\x00(a,b?)(a,b,c?)", 1));
    assert!(rt; wrong(b"\x02\x09\x00\x06\x01\x0f\x00\x08\x00(a,b?)(a,b,c?)", 0));
}

/// A book of one body has 5 bytes before it: 16,379 more, 0x3ffb, are the most.
#[test]
fn longest(rt: HostRuntime) {
    let mut bytes = [b'a'; 16385];
    bytes[..5].copy_from_slice(b"\x01\x05\x00\xfb\x3f");
    assert!(rt; has_bodies(&bytes[..16384], 1));
    assert!(rt; has_body(&bytes[..16384], 0, &bytes[5..16384]));
    bytes[3] = 0xfc;
    assert!(rt;
        refused(
            &bytes,
            Fault::TooLarge {
                layer: Layer::Book,
                limit: 16384,
            },
        )
    );
}

#[test]
fn made_and_read_back(rt: HostRuntime) -> Result<(), Fail> {
    assert!(rt;
        made(
            &[b"(a,b?)", b"(a,b,c?)"],
            b"\x02\x09\x00\x06\x00\x0f\x00\x08\x00(a,b?)(a,b,c?)\x07\x07\x07\x07\x07\x07\x07\x07\x07",
        )
    );
    let mut out = [7; 32];
    let size = make(&[b"(a,b?)", b"", b"x"], &mut out)?;
    assert!(rt; size == 20);
    assert!(rt; has_bodies(&out[..20], 3));
    assert!(rt; has_body(&out[..20], 0, b"(a,b?)"));
    assert!(rt; has_body(&out[..20], 1, b""));
    assert!(rt; has_body(&out[..20], 2, b"x"));
    Ok(())
}

#[test]
fn unmade_and_unchanged(rt: HostRuntime) {
    assert!(rt; unmade(&[], 32, Fault::WrongBook { entry: 0 }));
    let empty: &[u8] = b"";
    assert!(rt; unmade(&[empty; 17], 32, Fault::WrongBook { entry: 0 }));
    assert!(rt;
        unmade(
            &[b"(a,b?)", b"(a,b,c?)"],
            22,
            Fault::ShortList {
                layer: Layer::Book,
                cells: 23,
            },
        )
    );
    let body = [b'a'; 16380];
    assert!(rt;
        unmade(
            &[&body],
            32,
            Fault::TooLarge {
                layer: Layer::Book,
                limit: 16384,
            },
        )
    );
    assert!(rt;
        unmade(
            &[&body[..16379]],
            32,
            Fault::ShortList {
                layer: Layer::Book,
                cells: 16384,
            },
        )
    );
}
