// The rule of names, byte by byte.
ghost use Rattle.std.specs.Prelude.{◌≡◌, MatchOption};
ghost use Rattle.symbols.specs.Rule.{allowed};
ghost use Rattle.symbols.specs.Makings.{AllRight, WrongAt};

/// Whether a byte may stand at a place of a name, counted from 0.
fn allows(at: usize, byte: u8) -> bool
    ensures { result ≡ allowed at byte }
{
    matches!(byte, b'a'..=b'z' | b'A'..=b'Z' | b'_' | b':')
        || at != 0 && matches!(byte, b'0'..=b'9' | b'.' | b'-')
}

/// The first byte that may not stand where it does.
pub(crate) fn first_wrong(text: &[u8]) -> Option<usize>
    ensures { MatchOption result (AllRight text.now) (λ at. WrongAt text.now at) }
{
    text.iter()
        .enumerate()
        .position(|(at, &byte)| !allows(at, byte))
}
