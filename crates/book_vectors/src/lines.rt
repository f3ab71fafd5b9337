// Lines of names and of cues.
use book::lines::line;
use faults::{Fault, Layer};
use symbols::Printable;
use symbols::cue_rows::CueRow;
use symbols::name_rows::NameRow;

/// The line is `expected`, and a `#` behind it stays.
fn shows<P: Printable>(
    first: usize,
    second: usize,
    missed: Option<usize>,
    symbols: &[P],
    expected: &[u8],
) -> bool {
    let mut out = [b'#'; 320];
    let written = line(first, second, missed, symbols, &mut out);
    written.is_ok_and(|n| n == expected.len())
        && out
            .strip_prefix(expected)
            .is_some_and(|rest| rest.first() == Some(&b'#'))
}

// Two functions, since a refusal is looked for over fewer cells.
/// No line is written into 26 cells that hold `#`, and they stay.
fn refused<P: Printable>(
    first: usize,
    second: usize,
    missed: Option<usize>,
    symbols: &[P],
    fault: Fault,
) -> bool {
    let mut out = [b'#'; 26];
    let written = line(first, second, missed, symbols, &mut out);
    written.is_err_and(|found| found == fault) && out == [b'#'; 26]
}

#[test]
fn names(rt: HostRuntime) {
    let a = NameRow::of(b"a");
    let long = NameRow::of(b"x-0123456789012345678901234567.9");
    assert!(rt; shows(1, 15, None, &[a], b"1 in 15: included\n"));
    assert!(rt; shows(0, 1, Some(0), &[a], b"0 in 1: not, 0 symbols:\n"));
    assert!(rt; shows(0, 1, Some(1), &[a], b"0 in 1: not, 1 symbols: a\n"));
    assert!(rt;
        shows(
            10,
            3,
            Some(2),
            &[a, long, a],
            b"10 in 3: not, 2 symbols: a x-0123456789012345678901234567.9\n",
        )
    );
}

#[test]
fn eight_and_nine(rt: HostRuntime) {
    let a = NameRow::of(b"a");
    let b = NameRow::of(b"b");
    let word = [a, b, a, b, a, b, a, b, a];
    assert!(rt;
        shows(
            2,
            3,
            Some(8),
            &word,
            b"2 in 3: not, 8 symbols: a b a b a b a b\n",
        )
    );
    assert!(rt;
        shows(
            2,
            3,
            Some(9),
            &word,
            b"2 in 3: not, 9 symbols: a b a b a b a b ...\n",
        )
    );
    assert!(rt;
        shows(
            2,
            3,
            Some(18446744073709551615),
            &word[..8],
            b"2 in 3: not, 18446744073709551615 symbols: a b a b a b a b ...\n",
        )
    );
}

#[test]
fn cues(rt: HostRuntime) {
    let volume = CueRow {
        status: 0xb0,
        datum: 7,
    };
    let note = CueRow {
        status: 0x9f,
        datum: 0x3c,
    };
    assert!(rt;
        shows(
            0,
            0,
            Some(2),
            &[volume, note],
            b"0 in 0: not, 2 symbols: b0.07 9f.3c\n",
        )
    );
    assert!(rt;
        shows(
            4,
            5,
            Some(9),
            &[volume; 8],
            b"4 in 5: not, 9 symbols: b0.07 b0.07 b0.07 b0.07 b0.07 b0.07 b0.07 b0.07 ...\n",
        )
    );
}

#[test]
fn refusals(rt: HostRuntime) {
    let a = NameRow::of(b"a");
    let two = [a, a];
    assert!(rt; refused(16, 17, None, &two, Fault::NoPlace { place: 16 },));
    assert!(rt; refused(15, 17, Some(9), &two, Fault::NoPlace { place: 17 }));
    assert!(rt;
        refused(
            0,
            1,
            Some(3),
            &two,
            Fault::ShortList {
                layer: Layer::Line,
                cells: 3,
            },
        )
    );
    assert!(rt;
        refused(
            0,
            1,
            Some(100),
            &two,
            Fault::ShortList {
                layer: Layer::Line,
                cells: 8,
            },
        )
    );
    assert!(rt;
        refused(
            0,
            1,
            Some(2),
            &two,
            Fault::ShortList {
                layer: Layer::Line,
                cells: 28,
            },
        )
    );
}
