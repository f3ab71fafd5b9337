// Texts that are read: the text, its codes, its names.
use super::run::reads;
use std::test::Fail;

#[rattlefmt::skip]
const READINGS: &[(&[u8], &[u8], &[&[u8]])] = &[
    // sequences, choices and groups of one
    (b"(a,b,c)", &[1, 1, 2, 1, 2], &[b"a", b"b", b"c"]),
    (b"(a|b|c)", &[1, 1, 3, 1, 3], &[b"a", b"b", b"c"]),
    (b"(a)", &[1], &[b"a"]),
    (b"((a))", &[1], &[b"a"]),
    (b"((a),(b))", &[1, 1, 2], &[b"a", b"b"]),
    (b"(a,(b|c)*,x-t?)", &[1, 1, 1, 3, 5, 2, 1, 4, 2], &[b"a", b"b", b"c", b"x-t"]),
    (b"(a|(b,c)*|d)?", &[1, 1, 1, 2, 5, 3, 1, 3, 4], &[b"a", b"b", b"c", b"d"]),
    // a name twice is two names
    (b"(a,a)", &[1, 1, 2], &[b"a", b"a"]),
    // marks
    (b"(a)?", &[1, 4], &[b"a"]),
    (b"(a)*", &[1, 5], &[b"a"]),
    (b"(a)+", &[1, 6], &[b"a"]),
    (b"(a?)*", &[1, 4, 5], &[b"a"]),
    (b"((a+)?)*", &[1, 6, 4, 5], &[b"a"]),
    // white space
    (b" \t\r\n(a)\n", &[1], &[b"a"]),
    (b"( a , b )", &[1, 1, 2], &[b"a", b"b"]),
    (b"( a\t|\nb\r)* ", &[1, 1, 3, 5], &[b"a", b"b"]),
    // names
    (b"(_a:b.c-9)", &[1], &[b"_a:b.c-9"]),
    (b"(:)", &[1], &[b":"]),
    (b"(EMPTY)", &[1], &[b"EMPTY"]),
    (b"(ANY,EMPTY)", &[1, 1, 2], &[b"ANY", b"EMPTY"]),
    (b"(PCDATA)", &[1], &[b"PCDATA"]),
    (b"(aaaaaaaaaabbbbbbbbbbccccccccccdd)", &[1], &[b"aaaaaaaaaabbbbbbbbbbccccccccccdd"]),
    // the empty word
    (b"EMPTY", &[0], &[]),
    (b"\n EMPTY ", &[0], &[]),
    // mixed models
    (b"(#PCDATA)", &[0], &[]),
    (b"(#PCDATA)*", &[0], &[]),
    (b" ( #PCDATA ) ", &[0], &[]),
    (b"( #PCDATA )*", &[0], &[]),
    (b"(#PCDATA|a)*", &[1, 5], &[b"a"]),
    (b"(#PCDATA|a|b)*", &[1, 1, 3, 5], &[b"a", b"b"]),
    (b"( #PCDATA | a | b | c )*\n", &[1, 1, 3, 1, 3, 5], &[b"a", b"b", b"c"]),
];

#[test]
fn readings(rt: HostRuntime) -> Result<(), Fail> {
    for (text, codes, names) in READINGS {
        reads(&rt, text, codes, names)?;
    }
    Ok(())
}
