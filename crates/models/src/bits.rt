// Numbers of 64 bits as sets: bit k stands for position k + 1.
ghost use Rattle.std.specs.Prelude.{◌≡◌, ◌<◌};
ghost use Rattle.models.specs.Bitsets.{bit};

/// Whether bit k is set.
pub(crate) fn has(bits: u64, k: usize) -> bool
    requires { k < 64 }
    ensures { result ≡ bit bits k }
{
    (bits >> k) % 2 == 1
}
