// What each number in a list of codes stands for.
ghost use Rattle.std.specs.Prelude.{◌≡◌};
ghost use Rattle.codes.specs.Code.{Decodes, code_number};

/// What a code stands for; the codes are 0 to 6, in this order.
#[derive(Clone, Copy, PartialEq, Eq, Debug)]
pub enum Code {
    /// The empty word.
    Empty,
    /// The next unused symbol.
    Symbol,
    /// Two parts, one then the other.
    Then,
    /// Either of two parts.
    Either,
    /// A part under `?`.
    Optional,
    /// A part under `*`.
    Star,
    /// A part under `+`.
    Plus,
}

/// A number that is no code.
#[derive(Clone, Copy, PartialEq, Eq, Debug)]
pub struct UnknownCode(pub u8);

impl TryFrom<u8> for Code {
    type Error = UnknownCode;

    ghost try_from_gives = { Decodes };

    fn try_from(number: u8) -> Result<Self, UnknownCode> {
        match number {
            0 => Ok(Code::Empty),
            1 => Ok(Code::Symbol),
            2 => Ok(Code::Then),
            3 => Ok(Code::Either),
            4 => Ok(Code::Optional),
            5 => Ok(Code::Star),
            6 => Ok(Code::Plus),
            _ => Err(UnknownCode(number)),
        }
    }
}

impl From<Code> for u8 {
    ghost from_gives = { λ code number. number ≡ code_number code };

    fn from(code: Code) -> u8 {
        match code {
            Code::Empty => 0,
            Code::Symbol => 1,
            Code::Then => 2,
            Code::Either => 3,
            Code::Optional => 4,
            Code::Star => 5,
            Code::Plus => 6,
        }
    }
}
