// A set of positions, as it is printed.
use std::fmt;

/// The positions of a set, each after a space, or ` none`: bit k stands for position k + 1.
#[derive(Clone, Copy)]
pub(crate) struct Positions(pub(crate) u64);

impl fmt::Display for Positions {
    fn fmt<W: fmt::Write>(&self, f: &mut fmt::Formatter<W>) -> fmt::Result {
        if self.0 == 0 {
            return write!(f, " none");
        }
        for k in (0..64u32).filter(|k| (self.0 >> *k) % 2 == 1) {
            write!(f, " {}", k.saturating_add(1))?;
        }
        Ok(())
    }
}
