// The written form of a symbol.
ghost use Rattle.std.specs.Prelude.{◌≡◌, ◌≤◌, ◌++◌, length, take, drop, replicate};

/// 1 to 32 bytes: the first `len` of `bytes`.
// An array and a length, since a form is `Copy`, which an `ArrayVec` is not.
#[derive(Clone, Copy)]
pub struct Form {
    pub bytes: [u8; 32],
    pub len: usize,
    ghost some: { 1 ≤ len },
    ghost most: { len ≤ 32 },
}

impl Form {
    /// The bytes of the form.
    pub fn text(&self) -> &[u8]
        ensures { result.now ≡ take self.now.len self.now.bytes }
    {
        &self.bytes[..self.len]
    }
}

/// At most 32 bytes, with zeros behind them.
pub(crate) fn padded(text: &[u8]) -> [u8; 32]
    requires { length text.now ≤ 32 }
    ensures { result ≡ text.now ++ drop (length text.now) (replicate 32 0) }
{
    let mut bytes = [0; 32];
    bytes[..text.len()].copy_from_slice(text);
    bytes
}
