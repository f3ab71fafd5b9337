// Particles: names and groups with their marks, where a group holds particles.
ghost use Rattle.std.specs.Prelude.{◌≡◌, ◌≤◌, length};
ghost use Rattle.tokens.specs.Tokens.{token_of};
ghost use Rattle.grammar.specs.Reads.{joins, chain_of_tok, particle, body, onward};
ghost use Rattle.text_reader.specs.Parts.{Did};
ghost use Rattle.text_reader.specs.Readers.{Moves, Marks};

use super::reader::{Reader, refuse};
use codes::Code;
use faults::Fault;
use grammar::Chain;
use tokens::token_at;
use tokens::types::Token;

/// Whether a token is the sign of a chain.
fn is_sign(token: Token<'_>, chain: Chain) -> bool
    ensures { result ≡ joins chain (token_of token.entry) }
{
    matches!(
        (token, chain),
        (Token::Bar, Chain::Choice) | (Token::Comma, Chain::Seq)
    )
}

/// Which chain goes on with this token behind its first particle.
fn chain_of(token: Token<'_>) -> Chain
    ensures { result ≡ chain_of_tok (token_of token.entry) }
{
    match token {
        Token::Bar => Chain::Choice,
        // Any other token than a comma and a closing bracket is refused by `read_more`, with either chain.
        _ => Chain::Seq,
    }
}

impl Reader<'_> {
    /// The mark that stands right there, if any.
    pub(crate) fn read_mark(&mut self)
        requires { self.old.at ≤ length self.old.text.now }
        ensures { Marks self.old self.new }
    {
        let code = match token_at(self.text, self.at) {
            Token::Query => Code::Optional,
            Token::Star => Code::Star,
            Token::Plus => Code::Plus,
            _ => return,
        };
        self.out.push(code);
        self.at += 1;
    }

    /// A name, or a group one level down, with its mark. `depth` more levels may be opened.
    #[cycle(read_body_read_more_read_particle)]
    fn read_particle(&mut self, depth: u8) -> Result<(), Fault>
        ensures { Moves (Did particle depth) self.old result self.new }
    {
        let next = self.peek();
        match next.token {
            Token::Name(name) => self.take_name(next.at, name)?,
            Token::Open if depth == 0 => return Err(Fault::TooDeep { at: next.at }),
            Token::Open => {
                self.at = next.at + 1;
                self.read_body(depth - 1)?;
            }
            _ => return Err(refuse(next)),
        }
        self.read_mark();
        Ok(())
    }

    /// The inside of a group, with its closing bracket.
    #[cycle(read_body_read_more_read_particle)]
    pub(crate) fn read_body(&mut self, depth: u8) -> Result<(), Fault>
        ensures { Moves (Did body depth) self.old result self.new }
    {
        self.read_particle(depth)?;
        let chain = chain_of(self.peek().token);
        self.read_more(chain, depth)
    }

    /// The rest of a group behind one of its particles, with its closing bracket.
    #[cycle(read_body_read_more_read_particle)]
    fn read_more(&mut self, chain: Chain, depth: u8) -> Result<(), Fault>
        ensures { Moves (Did (onward chain) depth) self.old result self.new }
    {
        let next = self.peek();
        match next.token {
            Token::Close => {
                self.at = next.at + 1;
                Ok(())
            }
            token if is_sign(token, chain) => {
                self.at = next.at + 1;
                self.read_particle(depth)?;
                self.out.push(chain.into());
                self.read_more(chain, depth)
            }
            _ => Err(refuse(next)),
        }
    }
}
