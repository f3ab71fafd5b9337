// Books and what is printed for them.
use slip::slip_of;
use std::alloc::{AllocError, Global};
use std::test::Fail;

/// Sixteen bodies of 3 bytes: the first begins at 1 + 4 * 16 = 65.
const SIXTEEN: &[u8; 113] = b"\x10\
    \x41\x00\x03\x00\x44\x00\x03\x00\x47\x00\x03\x00\x4a\x00\x03\x00\
    \x4d\x00\x03\x00\x50\x00\x03\x00\x53\x00\x03\x00\x56\x00\x03\x00\
    \x59\x00\x03\x00\x5c\x00\x03\x00\x5f\x00\x03\x00\x62\x00\x03\x00\
    \x65\x00\x03\x00\x68\x00\x03\x00\x6b\x00\x03\x00\x6e\x00\x03\x00\
    (a)(a)(a)(a)(a)(a)(a)(a)(a)(a)(a)(a)(a)(a)(a)(a)";

/// A line for each of them and the next.
const FIFTEEN_LINES: &[u8] = b"0 in 1: included\n\
    1 in 2: included\n\
    2 in 3: included\n\
    3 in 4: included\n\
    4 in 5: included\n\
    5 in 6: included\n\
    6 in 7: included\n\
    7 in 8: included\n\
    8 in 9: included\n\
    9 in 10: included\n\
    10 in 11: included\n\
    11 in 12: included\n\
    12 in 13: included\n\
    13 in 14: included\n\
    14 in 15: included\n";

/// Just this is printed for the book, and it is said whether there is no fault.
fn prints(heap: Global, book: &[u8], text: &[u8], whole: bool) -> Result<bool, AllocError> {
    let slip = slip_of(heap, book)?;
    Ok(slip.whole == whole && slip.text.as_slice() == text)
}

/// The word a of the first is no word of the second, which wants a b; of the words of (a|b)*, b a is the first that (a*,b*) has not;
/// the empty word is no word of (a); and three models with the same words.
#[test]
fn verdicts(rt: HostRuntime) -> Result<(), Fail> {
    let heap = rt.alloc();
    assert!(rt;
        prints(
            heap,
            b"\x02\x09\x00\x06\x00\x0f\x00\x08\x00(a,b?)(a,b,c?)",
            b"0 in 1: not, 1 symbols: a\n",
            true,
        )?
    );
    assert!(rt;
        prints(
            heap,
            b"\x02\x09\x00\x06\x00\x0f\x00\x07\x00(a|b)*(a*,b*)",
            b"0 in 1: not, 2 symbols: b a\n",
            true,
        )?
    );
    assert!(rt;
        prints(
            heap,
            b"\x02\x09\x00\x05\x00\x0e\x00\x03\x00EMPTY(a)",
            b"0 in 1: not, 0 symbols:\n",
            true,
        )?
    );
    assert!(rt;
        prints(
            heap,
            b"\x03\x0d\x00\x06\x00\x13\x00\x06\x00\x19\x00\x06\x00(a|b)*(b|a)*(a|b)*",
            b"0 in 1: included\n1 in 2: included\n",
            true,
        )?
    );
    Ok(())
}

/// Eight symbols are shown, and dots for those that follow.
#[test]
fn long_words(rt: HostRuntime) -> Result<(), Fail> {
    let heap = rt.alloc();
    assert!(rt;
        prints(
            heap,
            b"\x02\x09\x00\x11\x00\x1a\x00\x05\x00(a,b,c,d,e,f,g,h)EMPTY",
            b"0 in 1: not, 8 symbols: a b c d e f g h\n",
            true,
        )?
    );
    assert!(rt;
        prints(
            heap,
            b"\x02\x09\x00\x13\x00\x1c\x00\x05\x00(a,b,c,d,e,f,g,h,i)EMPTY",
            b"0 in 1: not, 9 symbols: a b c d e f g h ...\n",
            true,
        )?
    );
    Ok(())
}

/// One line and no other: no bytes at all; a second body that ends early; and an ambiguous first body, before a second that is no text.
#[test]
fn faults(rt: HostRuntime) -> Result<(), Fail> {
    let heap = rt.alloc();
    assert!(rt; prints(heap, b"", b"book: 13 at 0\n", false)?);
    assert!(rt;
        prints(
            heap,
            b"\x02\x09\x00\x03\x00\x0c\x00\x0b\x00(a)(#PCDATA|a)",
            b"body 1: text 2 at 11\n",
            false,
        )?
    );
    assert!(rt;
        prints(
            heap,
            b"\x02\x09\x00\x09\x00\x12\x00\x01\x00(a*,a,a*)(",
            b"body 0: model 7 at 1 and 2\n",
            false,
        )?
    );
    Ok(())
}

/// One body has no next, and sixteen have fifteen lines.
#[test]
fn counts(rt: HostRuntime) -> Result<(), Fail> {
    let heap = rt.alloc();
    assert!(rt; prints(heap, b"\x01\x05\x00\x03\x00(a)", b"", true)?);
    assert!(rt; prints(heap, SIXTEEN, FIFTEEN_LINES, true)?);
    Ok(())
}
