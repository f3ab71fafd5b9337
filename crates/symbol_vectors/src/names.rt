// Names: which bytes are one, which are the same, which are foreign.
use faults::Fault;
use std::test::Fail;
use symbols::name_rows::NameRow;
use symbols::names::Name;
use symbols::{Printable, Symbol};

#[rattlefmt::skip]
const NAMES: &[&[u8]] = &[b"a", b"Z", b"_", b":", b"x-t", b"a.b-c_d:e9", b"aaaaaaaaaabbbbbbbbbbccccccccccdd"];

#[rattlefmt::skip]
const REFUSED: &[(&[u8], Fault)] = &[
    (b"", Fault::Unexpected { at: 0 }),
    (b"9", Fault::Unexpected { at: 0 }),
    (b"-a", Fault::Unexpected { at: 0 }),
    (b".", Fault::Unexpected { at: 0 }),
    (b"a b", Fault::Unexpected { at: 1 }),
    (b"ab\x80", Fault::Unexpected { at: 2 }),
    (b"aaaaaaaaaabbbbbbbbbbccccccccccddd", Fault::LongName { at: 0 }),
    (b"(aaaaaaaaabbbbbbbbbbccccccccccddd", Fault::LongName { at: 0 }),
];

#[test]
fn makings(rt: HostRuntime) -> Result<(), Fail> {
    for text in NAMES {
        let name = Name::new(text)?;
        assert!(rt; name.written().text() == *text);
        assert!(rt; name.same(&name));
        assert!(rt; name.row().is_name());
    }
    for (text, fault) in REFUSED {
        assert_eq!(rt; Name::new(text).err(), Some(*fault));
    }
    Ok(())
}

// A row's length counts as the nearest of 1 to 32, and bytes past it do not count.
#[test]
fn rows(rt: HostRuntime) {
    let mut row = NameRow::of(b"abc");
    assert!(rt; row.text() == b"abc".as_slice());
    row.len = 0;
    assert!(rt; row.text() == b"a".as_slice());
    assert!(rt; row.same(&NameRow::of(b"a")));
    row.len = 200;
    assert!(rt; row.width() == 32);
    assert!(rt; !row.is_name());
    assert!(rt; !row.same(&NameRow::of(b"abc")));
}

#[test]
fn foreign(rt: HostRuntime) {
    let cases: [(&[u8], bool); 5] = [
        (b"x-t", true),
        (b"x-", true),
        (b"x", false),
        (b"X-t", false),
        (b"ax-t", false),
    ];
    for (text, foreign) in cases {
        assert!(rt; NameRow::of(text).foreign() == foreign);
    }
}
