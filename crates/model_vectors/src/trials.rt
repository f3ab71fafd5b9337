// Words tried on models.
use super::run::tells;
use models::trials::Trial;
use std::test::Fail;

/// A model, as codes and one-letter names; a word of such names; and what its trial tells.
pub struct Tried {
    pub codes: &'static [u8],
    pub names: &'static [u8],
    pub word: &'static [u8],
    pub told: Trial,
}

#[rattlefmt::skip]
const TRIED: &[Tried] = &[
    // (a,b?)
    Tried { codes: &[1, 1, 4, 2], names: b"ab", word: b"", told: Trial::No { longest: 0 } },
    Tried { codes: &[1, 1, 4, 2], names: b"ab", word: b"a", told: Trial::Yes },
    Tried { codes: &[1, 1, 4, 2], names: b"ab", word: b"ab", told: Trial::Yes },
    Tried { codes: &[1, 1, 4, 2], names: b"ab", word: b"abb", told: Trial::No { longest: 2 } },
    Tried { codes: &[1, 1, 4, 2], names: b"ab", word: b"ba", told: Trial::No { longest: 0 } },
    // (a,b): a beginning is no word
    Tried { codes: &[1, 1, 2], names: b"ab", word: b"a", told: Trial::No { longest: 1 } },
    // EMPTY
    Tried { codes: &[0], names: b"", word: b"", told: Trial::Yes },
    Tried { codes: &[0], names: b"", word: b"a", told: Trial::No { longest: 0 } },
    // (a|b)*
    Tried { codes: &[1, 1, 3, 5], names: b"ab", word: b"abba", told: Trial::Yes },
    Tried { codes: &[1, 1, 3, 5], names: b"ab", word: b"abca", told: Trial::No { longest: 2 } },
    // (a,a*) and a+
    Tried { codes: &[1, 1, 5, 2], names: b"aa", word: b"aaa", told: Trial::Yes },
    Tried { codes: &[1, 6], names: b"a", word: b"", told: Trial::No { longest: 0 } },
];

#[test]
fn words(rt: HostRuntime) -> Result<(), Fail> {
    for case in TRIED {
        tells(&rt, rt.alloc(), case)?;
    }
    Ok(())
}
