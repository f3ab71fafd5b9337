// Mixed models: `#PCDATA`, alone or with names.
ghost use Rattle.std.specs.Prelude.{◌≡◌};
ghost use Rattle.grammar.specs.Reads.{named, listed};
ghost use Rattle.text_reader.specs.Output.{names_in};
ghost use Rattle.text_reader.specs.Parts.{Did, DidMix};
ghost use Rattle.text_reader.specs.Readers.{Moves};

use super::reader::{Reader, refuse};
use codes::Code;
use faults::Fault;
use tokens::token_at;
use tokens::types::Token;

impl Reader<'_> {
    /// A name of a mixed model.
    fn read_name(&mut self) -> Result<(), Fault>
        ensures { Moves (Did named 15) self.old result self.new }
    {
        let next = self.peek();
        match next.token {
            Token::Name(name) => self.take_name(next.at, name),
            _ => Err(refuse(next)),
        }
    }

    /// The rest of a mixed model behind one of its names, with its closing bracket.
    fn read_names(&mut self) -> Result<(), Fault>
        ensures { Moves (Did listed 15) self.old result self.new }
    {
        let next = self.peek();
        match next.token {
            Token::Close => {
                self.at = next.at + 1;
                Ok(())
            }
            Token::Bar => {
                self.at = next.at + 1;
                self.read_name()?;
                self.out.push(Code::Either);
                self.read_names()
            }
            _ => Err(refuse(next)),
        }
    }

    /// A mixed model behind its `#PCDATA`, with the star that must stand behind names.
    pub(crate) fn read_mixed(&mut self) -> Result<(), Fault>
        requires { names_in self.old.out ≡ 0 }
        ensures { Moves DidMix self.old result self.new }
    {
        let next = self.peek();
        match next.token {
            Token::Close => {
                self.out.push(Code::Empty);
                self.at = next.at + 1;
                if matches!(token_at(self.text, self.at), Token::Star) {
                    self.at += 1;
                }
                Ok(())
            }
            Token::Bar => {
                self.at = next.at + 1;
                self.read_name()?;
                self.read_names()?;
                match token_at(self.text, self.at) {
                    Token::Star => {
                        self.out.push(Code::Star);
                        self.at += 1;
                        Ok(())
                    }
                    _ => Err(refuse(self.peek())),
                }
            }
            _ => Err(refuse(next)),
        }
    }
}
