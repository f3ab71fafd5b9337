// A text, and how far it is read.
ghost use Rattle.std.specs.Prelude.{◌≡◌, ◌+◌, ◌≤◌, length};
ghost use Rattle.tokens.specs.Tokens.{token_of, Peeked};
ghost use Rattle.grammar.specs.Reads.{cannot};
ghost use Rattle.text_reader.specs.Answer.{fault_of};
ghost use Rattle.text_reader.specs.Parts.{Keeps};
ghost use Rattle.text_reader.specs.Readers.{Moves};

use super::output::Output;
use codes::Code;
use faults::{Fault, Layer};
use tokens::types::{Piece, Token};

/// The most bytes that a name may have.
const MOST_BYTES: usize = 32;

/// A text, the offset from which it is still to be read, and what was read before.
#[derive(Drop)]
pub struct Reader<'a> {
    pub text: &'a [u8],
    pub at: usize,
    pub out: Output,
}

impl<'a> Reader<'a> {
    /// The next token.
    pub(crate) fn peek(&self) -> Piece<'a>
        ensures { Peeked self.now.text.now self.now.at result }
    {
        tokens::peek(self.text, self.at)
    }

    /// Keeps the name at `at`, and goes on behind it.
    pub(crate) fn take_name(&mut self, at: usize, name: &[u8]) -> Result<(), Fault>
        requires { at + length name.now ≤ length self.old.text.now }
        ensures { Moves (λ _ _ o x p. Keeps name.now at o x p) self.old result self.new }
    {
        if name.len() > MOST_BYTES {
            return Err(Fault::LongName { at });
        }
        self.out.push_name(name).map_err(|_| Fault::TooLarge {
            layer: Layer::Text,
            limit: at,
        })?;
        self.out.push(Code::Symbol);
        self.at = at + name.len();
        Ok(())
    }
}

/// The fault of a token that can't follow.
pub(crate) fn refuse(piece: Piece<'_>) -> Fault
    ensures { result ≡ fault_of (cannot (token_of piece.entry.token)) piece.entry.at }
{
    match piece.token {
        Token::Other => Fault::StrangeByte { at: piece.at },
        _ => Fault::Unexpected { at: piece.at },
    }
}
