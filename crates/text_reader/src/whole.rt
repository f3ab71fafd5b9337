// Content specifications, and the whole text.
ghost use Rattle.std.specs.Prelude.{◌≡◌, [], codes, Decides};
ghost use Rattle.text_reader.specs.Output.{names_in, Holds};
ghost use Rattle.text_reader.specs.Parts.{DidOpen, DidWhole};
ghost use Rattle.text_reader.specs.Readers.{Moves};

use super::reader::{Reader, refuse};
use codes::Code;
use faults::Fault;
use tokens::types::Token;

/// How many levels may be opened inside the first bracket: sixteen in all.
const INNER_LEVELS: u8 = 15;

/// The bytes of `#PCDATA`.
const PCDATA_BYTES: usize = 7;

/// Whether a name is `EMPTY`.
fn is_empty(name: &[u8]) -> bool
    ensures { Decides result (name.now ≡ codes "EMPTY") }
{
    name == b"EMPTY".as_slice()
}

impl Reader<'_> {
    /// A content specification.
    fn read_spec(&mut self) -> Result<(), Fault>
        requires { names_in self.old.out ≡ 0 }
        ensures { Moves DidOpen self.old result self.new }
    {
        let first = self.peek();
        match first.token {
            Token::Name(name) if is_empty(name) => {
                self.out.push(Code::Empty);
                self.at = first.at + name.len();
                Ok(())
            }
            Token::Open => {
                self.at = first.at + 1;
                let next = self.peek();
                match next.token {
                    Token::Pcdata => {
                        self.at = next.at + PCDATA_BYTES;
                        self.read_mixed()
                    }
                    _ => {
                        self.read_body(INNER_LEVELS)?;
                        self.read_mark();
                        Ok(())
                    }
                }
            }
            _ => Err(refuse(first)),
        }
    }

    /// A content specification, and nothing behind it but white space.
    pub(crate) fn read_whole(&mut self) -> Result<(), Fault>
        requires start { self.old.at ≡ 0 }
        requires empty { Holds self.old.out [] [] }
        ensures { Moves (λ t _ _ x p. DidWhole t x p) self.old result self.new }
    {
        self.read_spec()?;
        let last = self.peek();
        match last.token {
            Token::End => Ok(()),
            _ => Err(refuse(last)),
        }
    }
}
