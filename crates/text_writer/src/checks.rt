// What the writer refuses.
ghost use Rattle.std.specs.Prelude.{◌≡◌, ℕ, ◌<◌, ◌≤◌, [], map, length, MatchOption, MatchResult};
ghost use Rattle.faults.specs.declared.Fault.TheVariants.{TooDeep, Unwritable};
ghost use Rattle.symbols.specs.NameRows.{row_bytes};
ghost use Rattle.text_writer.specs.Levels.{passed, Shallow, FirstDeep};
ghost use Rattle.text_writer.specs.Writes.{FirstEmpty, NoneEmpty, FirstNoName, AllNames};

use faults::Fault;
use symbols::name_rows::NameRow;

/// The most levels of brackets that a text may have.
const MOST_LEVELS: usize = 16;

/// Refuses what stands at the index, if there is one.
fn refuse_at(index: Option<usize>) -> Result<(), Fault>
    ensures { MatchOption index (result ≡ Ok tt) (λ i. result ≡ Err (Fault.Unwritable i)) }
{
    index.map_or(Ok(()), |index| Err(Fault::Unwritable { index }))
}

/// Refuses code 0, which is that of `Code::Empty`, among other codes.
pub(crate) fn check_parts(codes: &[u8]) -> Result<(), Fault>
    ensures { MatchResult result (λ _. NoneEmpty codes.now) (λ f. ((i : ℕ) × (f ≡ Unwritable i) × FirstEmpty codes.now i)) }
{
    if codes.len() <= 1 {
        return Ok(());
    }
    refuse_at(codes.iter().position(|code| *code == 0))
}

/// Refuses a row that is no name.
pub(crate) fn check_names(names: &[NameRow]) -> Result<(), Fault>
    ensures { MatchResult result (λ _. AllNames (map row_bytes names.now)) (λ f. ((i : ℕ) × (f ≡ Unwritable i) × FirstNoName (map row_bytes names.now) i)) }
{
    refuse_at(names.iter().position(|name| !name.is_name()))
}

/// How many brackets are open behind a byte.
fn pass(depth: usize, byte: u8) -> usize
    requires { depth ≤ 16 }
    ensures { result ≡ passed depth byte }
{
    match byte {
        b'(' => depth + 1,
        b')' => depth.saturating_sub(1),
        _ => depth,
    }
}

/// Refuses a bracket that opens a seventeenth level.
pub(crate) fn check_levels(text: &[u8]) -> Result<(), Fault>
    ensures { MatchResult result (λ _. Shallow text.now) (λ f. ((k : ℕ) × (f ≡ TooDeep k) × FirstDeep text.now k)) }
{
    let mut depth = 0;
    for (at, byte) in text.iter().enumerate() {
        if *byte == b'(' && depth >= MOST_LEVELS {
            return Err(Fault::TooDeep { at });
        }
        depth = pass(depth, *byte);
    }
    Ok(())
}
