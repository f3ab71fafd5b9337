// Classes of bytes, and tokens.

/// The class of a byte.
#[derive(Clone, Copy, Debug, PartialEq, Eq, Drop)]
pub enum Class {
    /// May begin a name: a letter, `_` or `:`.
    NameStart,
    /// May stand in a name behind its first byte only: a digit, `.` or `-`.
    NameOnly,
    /// White space: bytes 9, 10, 13 and 32.
    White,
    /// `(`
    Open,
    /// `)`
    Close,
    /// `|`
    Bar,
    /// `,`
    Comma,
    /// `?`
    Query,
    /// `*`
    Star,
    /// `+`
    Plus,
    /// `#`, which begins `#PCDATA`.
    Hash,
    /// Any other byte: no content model has it.
    Other,
}

/// A token. A name borrows its bytes from the text.
#[derive(Clone, Copy, Debug, PartialEq, Eq)]
pub enum Token<'a> {
    /// A name, as long as it goes on.
    Name(&'a [u8]),
    /// `#PCDATA`
    Pcdata,
    /// `(`
    Open,
    /// `)`
    Close,
    /// `|`
    Bar,
    /// `,`
    Comma,
    /// `?`
    Query,
    /// `*`
    Star,
    /// `+`
    Plus,
    /// A byte of a class that begins no token here: `#` without `PCDATA`, a digit, `.`, `-`, white space.
    Stray,
    /// A byte of no class but "other".
    Other,
    /// The end of the text.
    End,
}

/// A token with its offset in the text.
#[derive(Clone, Copy, Debug, PartialEq, Eq)]
pub struct Piece<'a> {
    /// The offset of the token's first byte, or the length of the text at its end.
    pub at: usize,
    pub token: Token<'a>,
}
