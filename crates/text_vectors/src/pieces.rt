// Tokens with their offsets.
use tokens::types::Token;
use tokens::{peek, token_at};

/// The text, where to look from, the offset of the token, and the token.
#[rattlefmt::skip]
const PIECES: &[(&[u8], usize, usize, Token<'_>)] = &[
    (b" \t ab-9.c)", 0, 3, Token::Name(b"ab-9.c")),
    (b"ab", 1, 1, Token::Name(b"b")),
    (b"a b", 1, 2, Token::Name(b"b")),
    (b"(#PCDATA)", 1, 1, Token::Pcdata),
    (b"#PCDAT", 0, 0, Token::Stray),
    (b" #", 0, 1, Token::Stray),
    (b" 9a", 0, 1, Token::Stray),
    (b"\n(", 0, 1, Token::Open),
    (b")", 0, 0, Token::Close),
    (b"|", 0, 0, Token::Bar),
    (b",", 0, 0, Token::Comma),
    (b"?", 0, 0, Token::Query),
    (b"*", 0, 0, Token::Star),
    (b"+", 0, 0, Token::Plus),
    (b"\x80", 0, 0, Token::Other),
    (b"\x00", 0, 0, Token::Other),
    (b"  ", 0, 2, Token::End),
    (b"", 0, 0, Token::End),
    (b"a", 5, 5, Token::End),
];

#[test]
fn pieces(rt: HostRuntime) {
    for (text, from, at, token) in PIECES {
        let piece = peek(text, *from);
        assert_eq!(rt; piece.at, *at);
        assert_eq!(rt; piece.token, *token);
    }
}

/// White space right at an offset is no token that can follow.
#[test]
fn right_there(rt: HostRuntime) {
    assert_eq!(rt; token_at(b"a *", 1), Token::Stray);
    assert_eq!(rt; token_at(b"a *", 2), Token::Star);
}
