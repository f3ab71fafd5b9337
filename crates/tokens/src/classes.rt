// The class of each byte, by one table.
ghost use Rattle.std.specs.Prelude.{◌≡◌};
ghost use Rattle.symbols.specs.Rule.{inner};
ghost use Rattle.tokens.specs.Bytes.{class_of, white};

use super::types::Class;
use Class::{
    Bar as B, Close as C, Comma as K, Hash as H, NameOnly as N, NameStart as A, Open as O,
    Other as X, Plus as P, Query as Q, Star as S, White as W,
};

// The rules of this project ask for one constant table with an entry for each byte. It stands behind a reference, since the
// check of `class_of` takes many times as long for a table by value.
#[rattlefmt::skip]
const CLASS: &[Class; 256] = &[
    X, X, X, X, X, X, X, X, X, W, W, X, X, W, X, X,
    X, X, X, X, X, X, X, X, X, X, X, X, X, X, X, X,
    W, X, X, H, X, X, X, X, O, C, S, P, K, N, N, X,
    N, N, N, N, N, N, N, N, N, N, A, X, X, X, X, Q,
    X, A, A, A, A, A, A, A, A, A, A, A, A, A, A, A,
    A, A, A, A, A, A, A, A, A, A, A, X, X, X, X, A,
    X, A, A, A, A, A, A, A, A, A, A, A, A, A, A, A,
    A, A, A, A, A, A, A, A, A, A, A, X, B, X, X, X,
    X, X, X, X, X, X, X, X, X, X, X, X, X, X, X, X,
    X, X, X, X, X, X, X, X, X, X, X, X, X, X, X, X,
    X, X, X, X, X, X, X, X, X, X, X, X, X, X, X, X,
    X, X, X, X, X, X, X, X, X, X, X, X, X, X, X, X,
    X, X, X, X, X, X, X, X, X, X, X, X, X, X, X, X,
    X, X, X, X, X, X, X, X, X, X, X, X, X, X, X, X,
    X, X, X, X, X, X, X, X, X, X, X, X, X, X, X, X,
    X, X, X, X, X, X, X, X, X, X, X, X, X, X, X, X,
];

/// The class of a byte.
pub fn class_of(b: u8) -> Class
    ensures { result ≡ class_of b }
{
    CLASS[b as usize]
}

/// Whether a byte is white space.
pub fn is_white(b: u8) -> bool
    ensures { result ≡ white b }
{
    class_of(b) == Class::White
}

/// Whether a byte may stand in a name behind its first byte.
pub fn is_inner(b: u8) -> bool
    ensures { result ≡ inner b }
{
    matches!(class_of(b), Class::NameStart | Class::NameOnly)
}
