// Rows of both kinds of symbol, by letters.
use std::alloc::{AllocError, Global};
use symbols::Symbol;
use symbols::cue_rows::CueRow;
use symbols::name_rows::NameRow;

/// A kind of symbol that has a row for each letter: a foreign one for `x`, and others for the small letters besides.
pub trait Row: Symbol + PartialEq {
    fn letter(letter: u8) -> Self;
}

impl Row for NameRow {
    fn letter(letter: u8) -> NameRow {
        if letter == b'x' {
            NameRow::of(b"x-t")
        } else {
            NameRow::of(&[letter])
        }
    }
}

/// A capital stands for the cue of its small letter on another channel.
impl Row for CueRow {
    fn letter(letter: u8) -> CueRow {
        match letter {
            b'x' => CueRow {
                status: 0xb0,
                datum: 0x70,
            },
            b'A'..=b'Z' => CueRow {
                status: 0x95,
                datum: letter + 32,
            },
            _ => CueRow {
                status: 0x90,
                datum: letter,
            },
        }
    }
}

/// The rows of the letters.
// `model_vectors` has its own, since one crate for both would be proved for tests alone.
pub fn spelled<S: Row>(heap: Global, letters: &[u8]) -> Result<Vec<S>, AllocError> {
    letters
        .iter()
        .map(|&letter| S::letter(letter))
        .collect(heap)
}
