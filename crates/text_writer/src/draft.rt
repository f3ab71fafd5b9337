// A text that grows from its end towards its beginning.
ghost use Rattle.std.specs.Prelude.{◌≡◌, ℕ, ◌≤◌, List, [], ◌∷◌, drop};
ghost use Rattle.text_writer.specs.Drafts.{Put, ended};

use std::marker::Model;

/// The most bytes that a text can have: 32 for each of 64 names, three for each of 1,280 codes, and the outer brackets.
const MOST_BYTES: usize = 5890;

/// The text so far: the bytes from `from` on.
// What of the kit grows at its front, `VecDeque` and `HeapCircularBuffer`, lies on a heap, and the writer takes none.
#[derive(Drop)]
pub struct Draft {
    bytes: [u8; MOST_BYTES],
    from: usize,
}

impl Model for Draft {
    ghost Value = { List ℕ };

    ghost view = { λ d. drop d.from d.bytes };

    ghost invariant = { λ d. d.from ≤ 5890 };
}

impl Draft {
    /// No text yet.
    pub(crate) fn new() -> Draft
        ensures { result ≡ [] }
    {
        Draft {
            bytes: [0; MOST_BYTES],
            from: MOST_BYTES,
        }
    }

    /// The text so far.
    pub(crate) fn text(&self) -> &[u8]
        ensures { result.now ≡ self.now }
    {
        &self.bytes[self.from..]
    }

    /// Puts bytes before the text, where there is room.
    pub(crate) fn push_all(&mut self, bytes: &[u8])
        ensures { Put self.old bytes.now self.new }
    {
        if let Some(from) = self.from.checked_sub(bytes.len()) {
            self.bytes[from..self.from].copy_from_slice(bytes);
            self.from = from;
        }
    }

    /// Puts a byte before the text, where there is room.
    pub(crate) fn push(&mut self, byte: u8)
        ensures { Put self.old (byte ∷ []) self.new }
    {
        self.push_all(&[byte]);
    }

    /// Puts a byte before the text if it is wanted.
    pub(crate) fn push_if(&mut self, wanted: bool, byte: u8)
        ensures { Put self.old (ended wanted byte) self.new }
    {
        if wanted {
            self.push(byte);
        }
    }
}
