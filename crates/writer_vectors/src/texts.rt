// What is written: codes, names, text.
use super::run::writes;
use std::test::Fail;

#[rattlefmt::skip]
const TEXTS: &[(&[u8], &[&[u8]], &[u8])] = &[
    // text that does not begin with a bracket is bracketed
    (&[1], &[b"a"], b"(a)"),
    (&[1, 4], &[b"a"], b"(a?)"),
    (&[1, 5], &[b"x-t"], b"(x-t*)"),
    // the empty word
    (&[0], &[], b"EMPTY"),
    // a part that ends in a mark is bracketed before a second mark
    (&[1, 4, 4], &[b"a"], b"(a?)?"),
    (&[1, 4, 5, 6], &[b"a"], b"((a?)*)+"),
    // chains along the left parts
    (&[1, 1, 2, 1, 2], &[b"a", b"b", b"c"], b"(a,b,c)"),
    (&[1, 1, 3, 1, 3], &[b"a", b"b", b"c"], b"(a|b|c)"),
    (&[1, 1, 1, 2, 2], &[b"a", b"b", b"c"], b"(a,(b,c))"),
    (&[1, 1, 1, 3, 3], &[b"a", b"b", b"c"], b"(a|(b|c))"),
    (&[1, 1, 2, 1, 3], &[b"a", b"b", b"c"], b"((a,b)|c)"),
    (&[1, 1, 3, 1, 2], &[b"a", b"b", b"c"], b"((a|b),c)"),
    // marks inside chains, and on chains
    (&[1, 1, 4, 2], &[b"a", b"b"], b"(a,b?)"),
    (&[1, 5, 1, 2], &[b"a", b"b"], b"(a*,b)"),
    (&[1, 1, 2, 5], &[b"a", b"b"], b"(a,b)*"),
    (&[1, 1, 2, 4, 1, 2], &[b"a", b"b", b"c"], b"((a,b)?,c)"),
    (&[1, 1, 1, 3, 5, 2], &[b"a", b"b", b"c"], b"(a,(b|c)*)"),
    (&[1, 1, 3, 5, 6], &[b"a", b"b"], b"((a|b)*)+"),
    // a name of 32 bytes
    (&[1], &[b"aaaaaaaaaabbbbbbbbbbccccccccccdd"], b"(aaaaaaaaaabbbbbbbbbbccccccccccdd)"),
];

#[test]
fn texts(rt: HostRuntime) -> Result<(), Fail> {
    for (codes, names, text) in TEXTS {
        writes(&rt, codes, names, text)?;
    }
    Ok(())
}

// Sixteen levels: seventeen marks on a name.
#[test]
fn sixteen_levels(rt: HostRuntime) -> Result<(), Fail> {
    let mut codes = [4; 18];
    codes[0] = 1;
    writes(
        &rt,
        &codes,
        &[b"a"],
        b"((((((((((((((((a?)?)?)?)?)?)?)?)?)?)?)?)?)?)?)?)?",
    )
}
