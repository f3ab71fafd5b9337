// Texts and lists at the limits, and one past them.
use super::run::{reads, refuses, refuses_lists};
use faults::{Fault, Layer};
use std::test::Fail;

#[rattlefmt::skip]
const LEVELS: &[u8] = b"(((((((((((((((((a)))))))))))))))))";

/// Sixteen brackets are read; a seventeenth is refused, at offset 16.
#[test]
fn levels(rt: HostRuntime) -> Result<(), Fail> {
    reads(&rt, &LEVELS[1..34], &[1], &[b"a"])?;
    refuses(&rt, LEVELS, Fault::TooDeep { at: 16 });
    Ok(())
}

/// `(a|a|..|a` with `n` names.
fn alternatives(n: usize) -> [u8; 256] {
    let mut text = [b' '; 256];
    text[0] = b'(';
    for pair in text[1..].chunks_exact_mut(2).take(n) {
        pair.copy_from_slice(b"a|");
    }
    text
}

/// The codes of a choice of 64 names: each but the first with a bar behind it.
fn alternative_codes() -> [u8; 127] {
    let mut codes = [1; 127];
    for code in codes.iter_mut().step_by(2).skip(1) {
        *code = 3;
    }
    codes
}

/// 64 names are read, as 127 codes.
#[test]
fn most_names(rt: HostRuntime) -> Result<(), Fail> {
    let mut text = alternatives(64);
    text[128] = b')';
    let names: [&[u8]; 64] = [b"a"; 64];
    reads(&rt, &text, &alternative_codes(), &names)
}

/// A 65th name is refused, at offset 129.
#[test]
fn too_many_names(rt: HostRuntime) {
    let mut text = alternatives(65);
    text[130] = b')';
    let fault = Fault::TooLarge {
        layer: Layer::Text,
        limit: 129,
    };
    refuses(&rt, &text, fault);
}

/// `(a|a|..|a|` with 64 names, then a name of 33 bytes.
fn long_last() -> [u8; 256] {
    let mut text = alternatives(64);
    text[129..162].fill(b'b');
    text
}

/// A 65th name that has 33 bytes is refused for its length.
#[test]
fn long_65th_name(rt: HostRuntime) {
    refuses(&rt, &long_last(), Fault::LongName { at: 129 });
}

/// 65,535 bytes are judged by what they are; one more is too many, at offset 65,535.
#[test]
fn length(rt: HostRuntime) -> Result<(), Fail> {
    let mut text = [b' '; 65536];
    refuses(&rt, &text[..65535], Fault::Unexpected { at: 65535 });
    text[0] = b'(';
    text[65533] = b'a';
    text[65534] = b')';
    reads(&rt, &text[..65535], &[1], &[b"a"])?;
    refuses(
        &rt,
        &text,
        Fault::TooLarge {
            layer: Layer::Text,
            limit: 65535,
        },
    );
    Ok(())
}

/// A list one cell short is refused before the text is judged, the list of codes first.
#[test]
fn short_lists(rt: HostRuntime) {
    let few_codes = Fault::ShortList {
        layer: Layer::Text,
        cells: 1280,
    };
    let few_names = Fault::ShortList {
        layer: Layer::Text,
        cells: 64,
    };
    refuses_lists(&rt, b"(a)", 1279, 64, few_codes);
    refuses_lists(&rt, b"(a)", 1280, 63, few_names);
    refuses_lists(&rt, b"<", 1279, 63, few_codes);
    refuses_lists(&rt, b"<", 0, 0, few_codes);
    let text = [b' '; 65536];
    refuses_lists(&rt, &text, 1280, 63, few_names);
}
