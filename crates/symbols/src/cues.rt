// Cues: channel messages of MIDI 1.0.
ghost use Rattle.std.specs.Prelude.{◌≡◌, MatchResult};
ghost use Rattle.std.proofs.Props.{props};
ghost use Rattle.symbols.specs.Rule.{IsCue};
ghost use Rattle.symbols.specs.Makings.{NotCue};

use super::cue_rows::CueRow;
use super::proper::{Proper, Row};
use faults::Fault;

/// A cue: a status of 128 to 239 and a first data byte of 0 to 127.
pub type Cue = Proper<CueRow>;

impl Row for CueRow {
    ghost proper = { λ r. IsCue r.status r.datum };

    ghost one_way = { λ r. Prim.hlevel props };
}

impl Proper<CueRow> {
    /// The cue of a status and a data byte. A status out of range gives fault 15 at 0, else such a data byte 15 at 1.
    pub fn new(status: u8, datum: u8) -> Result<Cue, Fault>
        ensures { MatchResult result (λ c. (c.row.status ≡ status) × (c.row.datum ≡ datum)) (λ e. NotCue status datum e) }
    {
        if !(128..=239).contains(&status) {
            return Err(Fault::WrongCue { byte: 0 });
        }
        if datum > 127 {
            return Err(Fault::WrongCue { byte: 1 });
        }
        Ok(Proper {
            row: CueRow { status, datum },
        })
    }
}
