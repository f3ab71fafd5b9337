// The layer that takes at most so many symbols.
ghost use Rattle.std.specs.Prelude.{◌≡◌, ◌≤◌};
ghost use Rattle.tables.specs.Layers.{Greatest, greatest, held, limited};
ghost use Rattle.tables.proofs.Limits.{limited_sound, limit_alike};
ghost use Rattle.readers.specs.Fit.{fit_answer};

use super::Reader;
use faults::Fault;
use symbols::Symbol;

/// Limit over a reader: it takes what the reader below takes in at most so many symbols as it holds, which is the
/// limit asked for where that fits, and otherwise the greatest that fits. It has each state below once for each
/// count of symbols from 0 on, at most 4096 in all.
#[derive(Drop)]
pub struct Limit<R> {
    below: R,
    asked: usize,
}

/// The greatest limit that fits over so many states.
fn greatest(states: u16) -> u16
    requires { (1 ≤ states) × (states ≤ 4096) }
    ensures { result ≡ greatest states }
{
    4096 / states - 1
}

/// The limit that a layer over so many states holds.
fn held(states: u16, asked: usize) -> u16
    requires { (1 ≤ states) × (states ≤ 4096) }
    ensures { result ≡ held states asked }
{
    asked.min(usize::from(greatest(states))) as u16
}

impl<R> Limit<R> {
    /// Whether a limit of so many symbols over the reader has at most 4096 states. If not, fault 12 names the
    /// greatest limit that has.
    pub fn fit<S: Symbol>(below: &R, limit: usize) -> Result<(), Fault>
    where
        R: Reader<S>,
        ensures answers { result ≡ fit_answer (R.Reader.table below.now).states limit }
        ensures greatest { Greatest (R.Reader.table below.now).states (greatest (R.Reader.table below.now).states) }
    {
        let greatest = usize::from(greatest(below.states()));
        if limit <= greatest {
            Ok(())
        } else {
            Err(Fault::Unfit { greatest })
        }
    }

    /// A limit over the reader: the one asked for where it fits, and otherwise the greatest that fits.
    pub fn new(below: R, limit: usize) -> Limit<R>
        ensures { (result.below ≡ below) × (result.asked ≡ limit) }
    {
        Limit {
            below,
            asked: limit,
        }
    }

    /// The limit that the layer holds: how many symbols a word may have.
    pub fn limit<S: Symbol>(&self) -> usize
    where
        R: Reader<S>,
        ensures { result ≡ held (R.Reader.table self.now.below).states self.now.asked }
    {
        usize::from(held(self.below.states(), self.asked))
    }
}

impl<S: Symbol, R: Reader<S>> Reader<S> for Limit<R> {
    ghost table = { λ r. limited r.asked (R.Reader.table r.below) };

    ghost sound = { λ r. limited_sound r.asked (R.Reader.table r.below) (R.Reader.sound r.below) };

    ghost alike = { λ r. limit_alike (held (R.Reader.table r.below).states r.asked) (R.Reader.table r.below) (R.Reader.alike r.below) };

    fn states(&self) -> u16 {
        let below = self.below.states();
        below * (held(below, self.asked) + 1)
    }

    fn start(&self) -> u16 {
        self.below.start()
    }

    fn is_ending(&self, state: u16) -> bool {
        let below = self.below.states();
        state < self.states() && self.below.is_ending(state % below)
    }

    fn step(&self, state: u16, symbol: &S) -> Option<u16> {
        let below = self.below.states();
        if state >= below * held(below, self.asked) {
            return None;
        }
        let next = self.below.step(state % below, symbol)?;
        Some((state / below + 1) * below + next)
    }
}
