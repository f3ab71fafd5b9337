// The tokens of a content model: a name as long as it goes on, `#PCDATA`, a sign, any other byte by itself, or the end.
#![tactic(auto)]

ghost use Rattle.std.specs.Prelude.{◌≡◌, ℕ, ◌≤◌, Bool, false, length, codes};
ghost use Rattle.tokens.specs.Tokens.{token_of, tok, Tells, Longest, Held, Peeked, begins, OnePiece};

pub mod classes;
pub mod types;

use classes::{class_of, is_inner, is_white};
use types::{Class, Piece, Token};

/// Where the run of bytes that belong, from `at` on, ends.
fn run_end<F: Fn(u8) -> bool>(text: &[u8], at: usize, belongs: F) -> usize
    requires { F.IsAlwaysCallable belongs }
    ensures on { at ≤ result }
    ensures inside { at ≤ length text.now → result ≤ length text.now }
    ensures longest { (p : ℕ → Bool) → Tells F.Fn p belongs → p 0 ≡ false → Longest p text.now at result }
{
    let rest = &text[at.min(text.len())..];
    at + rest.iter().take_while(|b| belongs(**b)).count()
}

/// Whether the bytes begin with `#PCDATA`.
fn is_pcdata(bytes: &[u8]) -> bool
    ensures { result ≡ begins (codes "#PCDATA") bytes.now }
{
    bytes.starts_with(b"#PCDATA")
}

/// The token that begins right at `at`; white space there is a token that can't follow any.
#[tactic(auto, using(crate::proofs::Runs::tok_in, crate::proofs::Runs::tok_past))]
pub fn token_at(text: &[u8], at: usize) -> Token<'_>
    ensures is { token_of result ≡ tok text.now at }
    ensures held { Held text.now at result }
{
    let Some(first) = text.get(at) else {
        return Token::End;
    };
    match class_of(*first) {
        Class::NameStart => {
            let end = run_end(text, at + 1, is_inner);
            Token::Name(&text[at..end])
        }
        Class::Hash if is_pcdata(&text[at..]) => Token::Pcdata,
        Class::Hash => Token::Stray,
        Class::White | Class::NameOnly => Token::Stray,
        Class::Open => Token::Open,
        Class::Close => Token::Close,
        Class::Bar => Token::Bar,
        Class::Comma => Token::Comma,
        Class::Query => Token::Query,
        Class::Star => Token::Star,
        Class::Plus => Token::Plus,
        Class::Other => Token::Other,
    }
}

/// The first token from `from` on, behind white space or none. White space stood before it when its offset is past `from`.
pub fn peek(text: &[u8], from: usize) -> Piece<'_>
    ensures { Peeked text.now from result }
{
    let at = run_end(text, from, is_white);
    let token = token_at(text, at);
    Piece { at, token }
}

/// The first token from an offset on is one: its own offset, its kind and its bytes.
pub fn one_piece()
    ensures { OnePiece }
{}
