// Loads that are done: which cells they write.
use super::desk::new_desk;
use super::rows::Row;
use std::alloc::Global;
use std::process::Abort;
use std::test::*;
use symbols::cue_rows::CueRow;
use symbols::name_rows::NameRow;

/// A model by its codes and letters, with the set of positions that follow each, where position y counts 2 to the power of y - 1.
struct Load {
    codes: &'static [u8],
    letters: &'static [u8],
    followers: &'static [u64],
}

#[rattlefmt::skip]
const LOADS: &[Load] = &[
    // EMPTY
    Load { codes: &[0], letters: b"", followers: &[] },
    // (a,b?)
    Load { codes: &[1, 1, 4, 2], letters: b"ab", followers: &[2, 0] },
    // (a,a*)
    Load { codes: &[1, 1, 5, 2], letters: b"aa", followers: &[2, 2] },
    // (a|b)*
    Load { codes: &[1, 1, 3, 5], letters: b"ab", followers: &[3, 3] },
    // (a*,b*)*
    Load { codes: &[1, 5, 1, 5, 2, 5], letters: b"ab", followers: &[3, 3] },
    // (a*,b*)
    Load { codes: &[1, 5, 1, 5, 2], letters: b"ab", followers: &[3, 2] },
    // (a,x-t,b)
    Load { codes: &[1, 1, 2, 1, 2], letters: b"axb", followers: &[2, 4, 0] },
    // ((a,b)+|c?)
    Load { codes: &[1, 1, 2, 6, 1, 4, 3], letters: b"abc", followers: &[2, 1, 0] },
];

/// Each model in a place of its own, from the third on.
fn done<S: Row>(rt: &impl Abort, heap: Global) -> Result<(), Fail> {
    let mut desk = new_desk::<S>(heap)?;
    for (i, load) in LOADS.iter().enumerate() {
        assert!(rt; i < 13);
        desk.loads(rt, i + 3, load.codes, load.letters, load.followers)?;
    }
    Ok(())
}

#[test]
fn names(rt: HostRuntime) -> Result<(), Fail> {
    done::<NameRow>(&rt, rt.alloc())
}

#[test]
fn cues(rt: HostRuntime) -> Result<(), Fail> {
    done::<CueRow>(&rt, rt.alloc())
}

/// 64 symbols, then 63 `then`.
// `model_vectors` has its own, since one crate for both would be proved for tests alone.
pub fn sequence() -> [u8; 127] {
    let mut codes = [1; 127];
    codes[64..].fill(2);
    codes
}

/// Each of 64 positions is followed by the next.
// `model_vectors` has its own, since one crate for both would be proved for tests alone.
fn sequence_followers() -> [u64; 64] {
    let mut followers = [0; 64];
    for (i, row) in followers.iter_mut().take(63).enumerate() {
        *row = 1 << (i + 1);
    }
    followers
}

/// A model of 64 symbols fills the cells of its place, the last place too, and not one more.
#[test]
fn whole_places(rt: HostRuntime) -> Result<(), Fail> {
    let heap = rt.alloc();
    let mut desk = new_desk::<CueRow>(heap)?;
    desk.loads(&rt, 0, &sequence(), &[b'a'; 64], &sequence_followers())?;
    desk.loads(&rt, 15, &sequence(), &[b'b'; 64], &sequence_followers())?;
    desk.loads(&rt, 14, &[1, 4], b"a", &[0])
}

/// 640 empty words, 639 `then`, and a '?'.
// `model_vectors` has its own, since one crate for both would be proved for tests alone.
fn empty_codes() -> [u8; 1280] {
    let mut codes = [0; 1280];
    codes[640..1279].fill(2);
    codes[1279] = 4;
    codes
}

/// 1,280 codes are done.
#[test]
fn most_codes(rt: HostRuntime) -> Result<(), Fail> {
    let mut desk = new_desk::<NameRow>(rt.alloc())?;
    desk.loads(&rt, 2, &empty_codes(), b"", &[])
}
