// The tables of a model from its codes, by a stack of parts.
ghost use Rattle.std.specs.Prelude.{◌≡◌, ℕ, ◌+◌, ◌<◌, ◌≤◌, List, length, take, slice_index};
ghost use Rattle.codes.specs.Build.{build, step};
ghost use Rattle.language.specs.Words.{Expr};
ghost use Rattle.models.specs.Machine.{Advanced, Evaluated, Linked, Rows, Stack, Tabulated};

use super::bits::has;
use super::tables::Sets;
use codes::{Code, within_limits};
use faults::Fault;

/// The sets of a model, and the followers of position x in row x - 1.
#[derive(Clone, Copy)]
pub(crate) struct Tables {
    pub sets: Sets,
    pub rows: [u64; 64],
}

/// Makes the positions of `first` followers of each position of `last`.
fn link(rows: &mut [u64], last: u64, first: u64)
    requires { length rows.old ≤ 64 }
    ensures { Linked last first rows.old rows.new }
{
    // Each row is written, so that there is no branch.
    for (x, row) in rows.iter_mut().enumerate() {
        *row = if has(last, x) { *row | first } else { *row };
    }
}

/// How many parts are made and not yet taken, and how many symbols are used.
// The parts and the rows are lent to each call and are no fields. So the two counts stay in registers, where an `ArrayVec` of the parts keeps its
// length in memory, beside the cells; and no clause has to say that the rows stay those that were lent.
#[derive(Drop)]
struct Machine {
    depth: usize,
    used: usize,
}

impl Machine {
    /// Takes one more code, with the parts so far in the first cells of `parts`, and a row for each symbol; `None` where it is above 6, or a part or a symbol is missing.
    // No fault here: it tells where the code stands, and that the caller alone knows.
    fn advance(&mut self, parts: &mut [Sets], rows: &mut [u64], code: u8) -> Option<()>
        requires room { self.old.depth < length parts.old }
        requires rows { length rows.old ≤ 64 }
        requires used { self.old.used ≤ length rows.old }
        ensures parts { self.new.depth ≤ self.old.depth + 1 }
        ensures used { self.new.used ≤ length rows.old }
        ensures made { (s : List Expr) → Stack (take self.old.depth parts.old) s → Rows rows.old s
            → Advanced result (step (length rows.old) code s self.old.used) (take self.new.depth parts.new) self.new.used rows.new }
    {
        let depth = self.depth;
        match Code::try_from(code).ok()? {
            Code::Empty => {
                parts[depth] = Sets::of_empty();
                self.depth = depth + 1;
            }
            Code::Symbol if self.used < rows.len() => {
                parts[depth] = Sets::of_position(self.used);
                self.depth = depth + 1;
                self.used += 1;
            }
            Code::Then if depth >= 2 => {
                let left = parts[depth - 2];
                let right = parts[depth - 1];
                link(rows, left.last, right.first);
                parts[depth - 2] = left.then(right);
                self.depth = depth - 1;
            }
            Code::Either if depth >= 2 => {
                let left = parts[depth - 2];
                let right = parts[depth - 1];
                parts[depth - 2] = left.or(right);
                self.depth = depth - 1;
            }
            Code::Optional if depth >= 1 => {
                let part = parts[depth - 1];
                parts[depth - 1] = part.optional();
            }
            Code::Star if depth >= 1 => {
                let any = parts[depth - 1];
                link(rows, any.last, any.first);
                parts[depth - 1] = any.optional();
            }
            Code::Plus if depth >= 1 => {
                let once = parts[depth - 1];
                link(rows, once.last, once.first);
                parts[depth - 1] = once.repeated();
            }
            _ => return None,
        }
        Some(())
    }
}

/// The sets of the whole model, with a row for each symbol, by a stack in `parts`.
fn evaluate_on(codes: &[u8], parts: &mut [Sets], rows: &mut [u64]) -> Result<Sets, Fault>
    requires room { length codes.now ≤ length parts.old }
    requires few { length rows.old ≤ 64 }
    requires zero { (x : ℕ) → slice_index rows.old x ≡ 0 }
    ensures { Evaluated result (build (length rows.old) codes.now) rows.new }
{
    let mut machine = Machine { depth: 0, used: 0 };
    for (i, code) in codes.iter().enumerate() {
        machine
            .advance(parts, rows, *code)
            .ok_or(Fault::Malformed { at: i })?;
    }
    if machine.depth == 1 && machine.used == rows.len() {
        Ok(parts[0])
    } else {
        Err(Fault::Malformed { at: codes.len() })
    }
}

/// The sets of the whole model, with a row for each symbol. Few codes have a small stack, since a stack is cleared before it is used.
fn evaluate(codes: &[u8], rows: &mut [u64]) -> Result<Sets, Fault>
    requires room { length codes.now ≤ 1280 }
    requires few { length rows.old ≤ 64 }
    requires zero { (x : ℕ) → slice_index rows.old x ≡ 0 }
    ensures { Evaluated result (build (length rows.old) codes.now) rows.new }
{
    if codes.len() <= 64 {
        let mut parts = [Sets::default(); 64];
        evaluate_on(codes, &mut parts, rows)
    } else {
        let mut parts = [Sets::default(); 1280];
        evaluate_on(codes, &mut parts, rows)
    }
}

/// The tables of the codes of a model with so many symbols.
pub(crate) fn tabulate(codes: &[u8], symbols: usize) -> Result<Tables, Fault>
    ensures { Tabulated symbols codes.now result }
{
    within_limits(codes, symbols)?;
    let mut rows = [0; 64];
    let sets = evaluate(codes, &mut rows[..symbols])?;
    Ok(Tables { sets, rows })
}
