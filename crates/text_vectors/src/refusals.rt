// Texts that are refused: the text, and the offset of its fault.
use super::run::refuses;
use faults::Fault;

/// A token can't follow, or the text ends early.
#[rattlefmt::skip]
const UNEXPECTED: &[(&[u8], usize)] = &[
    // no text, and white space alone
    (b"", 0),
    (b" \t\r\n", 4),
    // names that are no content specification
    (b"a", 0),
    (b"ANY", 0),
    (b" EMPTYX", 1),
    (b"EMPTY EMPTY", 6),
    (b"EMPTY*", 5),
    // signs out of place
    (b"()", 1),
    (b"(,a)", 1),
    (b"(a,)", 3),
    (b"(a|)", 3),
    (b"(a b)", 3),
    (b"(a,|b)", 3),
    (b"(a|b,c)", 4),
    (b"(a,b|c)", 4),
    (b"(a,(b|c,d))", 7),
    (b")", 0),
    (b"*", 0),
    (b"(a))", 3),
    (b"(a)b", 3),
    (b"(a)(b)", 3),
    // marks: one, and right behind what is marked
    (b"(a *)", 3),
    (b"(a) *", 4),
    (b"((a) ?)", 5),
    (b"(a)**", 4),
    (b"(a?+)", 3),
    (b"(*a)", 1),
    // bytes that begin no token
    (b"(1)", 1),
    (b"(-a)", 1),
    (b"(.)", 1),
    (b"#", 0),
    (b"(#)", 1),
    (b"(#pcdata)", 1),
    (b"(#PCDAT)", 1),
    (b"(a,#)", 3),
    // mixed models
    (b"#PCDATA", 0),
    (b"(#PCDATAX)", 8),
    (b"(#PCDATA,a)", 8),
    (b"(#PCDATA|)", 9),
    (b"(#PCDATA|(a))*", 9),
    (b"(#PCDATA|a,b)*", 10),
    (b"(#PCDATA|a?)*", 10),
    (b"(#PCDATA|a)", 11),
    (b"(#PCDATA|a)+", 11),
    (b"(#PCDATA|a) *", 12),
    (b"(#PCDATA) *", 10),
    (b"(#PCDATA)+", 9),
    (b"(#PCDATA)**", 10),
    (b"(a|#PCDATA)", 3),
    (b"((#PCDATA))", 2),
    // a name of 33 bytes where none may stand
    (b"aaaaaaaaaabbbbbbbbbbccccccccccddd", 0),
    (b"(a aaaaaaaaaabbbbbbbbbbccccccccccddd)", 3),
];

/// A byte of no class but "other".
#[rattlefmt::skip]
const STRANGE: &[(&[u8], usize)] = &[
    (b"<", 0),
    (b"\x00", 0),
    (b"(\x00)", 1),
    (b"(a,\x80)", 3),
    (b"(a\xff)", 2),
    (b"(a)<", 3),
    (b"EMPTY ;", 6),
    (b"(#PCDATA&)", 8),
    (b"(#PCDATA|a)%", 11),
    (b"(a,b)\x0b", 5),
];

/// A name of over 32 bytes.
#[rattlefmt::skip]
const LONG_NAME: &[(&[u8], usize)] = &[
    (b"(aaaaaaaaaabbbbbbbbbbccccccccccddd)", 1),
    (b"(a, aaaaaaaaaabbbbbbbbbbccccccccccddd)", 4),
    (b"(#PCDATA|aaaaaaaaaabbbbbbbbbbccccccccccddd)*", 9),
];

#[test]
fn unexpected(rt: HostRuntime) {
    for (text, at) in UNEXPECTED {
        refuses(&rt, text, Fault::Unexpected { at: *at });
    }
}

#[test]
fn strange(rt: HostRuntime) {
    for (text, at) in STRANGE {
        refuses(&rt, text, Fault::StrangeByte { at: *at });
    }
}

#[test]
fn long_name(rt: HostRuntime) {
    for (text, at) in LONG_NAME {
        refuses(&rt, text, Fault::LongName { at: *at });
    }
}

/// Each proper prefix of these ends early, at its length.
#[rattlefmt::skip]
const CUT: &[&[u8]] = &[
    b"(a,(b|c)*,x-t?)",
    b"  ( a | ( b , c )+ )",
    b"((((a))))",
];

#[test]
fn prefixes(rt: HostRuntime) {
    for text in CUT {
        // n is a length.
        for n in 0..text.len() {
            refuses(&rt, &text[..n], Fault::Unexpected { at: n });
        }
    }
}

/// A proper prefix of a mixed model ends early, at its length; where `#PCDATA` is cut, its `#` can't follow.
#[test]
fn mixed_prefixes(rt: HostRuntime) {
    let text = b"(#PCDATA|a|b)*";
    // n is a length.
    for n in 0..text.len() {
        let at = if (2..8).contains(&n) { 1 } else { n };
        refuses(&rt, &text[..n], Fault::Unexpected { at });
    }
}

/// A proper prefix of `EMPTY` is a bare name, or nothing.
#[test]
fn empty_prefixes(rt: HostRuntime) {
    let text = b"EMPTY";
    // n is a length.
    for n in 0..text.len() {
        refuses(&rt, &text[..n], Fault::Unexpected { at: 0 });
    }
}
