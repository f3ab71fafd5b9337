// Cues: which bytes are one, which are the same, which are foreign, how they are written.
use faults::Fault;
use std::test::Fail;
use symbols::cue_rows::CueRow;
use symbols::cues::Cue;
use symbols::{Printable, Symbol};

fn row(status: u8, datum: u8) -> CueRow {
    CueRow { status, datum }
}

#[test]
fn makings(rt: HostRuntime) -> Result<(), Fail> {
    for (status, datum) in [(128, 0), (239, 127)] {
        assert!(rt; Cue::new(status, datum)?.row() == row(status, datum));
    }
    let refused = [
        (127, 0, 0),
        (240, 0, 0),
        (0, 200, 0),
        (128, 128, 1),
        (239, 255, 1),
    ];
    for (status, datum, byte) in refused {
        assert_eq!(rt;
            Cue::new(status, datum).err(),
            Some(Fault::WrongCue { byte })
        );
    }
    Ok(())
}

#[test]
fn sameness(rt: HostRuntime) {
    let note = row(0x90, 60);
    for (other, same) in [
        (row(0x9f, 60), true),
        (row(0xa0, 60), false),
        (row(0x90, 61), false),
    ] {
        assert!(rt; note.same(&other) == same);
    }
}

// Status quotient 11, data byte 102 to 119.
#[test]
fn foreign(rt: HostRuntime) {
    for (cue, foreign) in [
        (row(0xb0, 102), true),
        (row(0xbf, 119), true),
        (row(0xb0, 101), false),
        (row(0xb0, 120), false),
        (row(0xa0, 110), false),
    ] {
        assert!(rt; cue.foreign() == foreign);
    }
}

#[test]
fn written(rt: HostRuntime) {
    let cases: [(CueRow, &[u8]); 3] = [
        (row(0xb0, 0x07), b"b0.07"),
        (row(0x9f, 0x7e), b"9f.7e"),
        (row(0x00, 0xff), b"00.ff"),
    ];
    for (cue, text) in cases {
        assert!(rt; cue.written().text() == text);
    }
}
