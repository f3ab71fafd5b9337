// One call each, held to what was worked out.
use super::trials::Tried;
use codes::check as check_codes;
use faults::Fault;
use models::pairs::Pair;
use models::tables::Sets;
use models::{Automaton, competing, sets, study};
use std::alloc::{AllocError, Global};
use std::process::Abort;
use std::test::Fail;
use symbols::Symbol;
use symbols::name_rows::NameRow;

/// What each cell of the list of followers holds before a call.
const MARK: u64 = 999;

/// A name of one letter for each byte.
fn spelled(heap: Global, letters: &[u8]) -> Result<Vec<NameRow>, AllocError> {
    letters
        .iter()
        .map(|letter| NameRow::of(&[*letter]))
        .collect(heap)
}

/// Whether the rows are the first cells, and all others are as they were.
fn written(cells: &[u64], rows: &[u64]) -> bool {
    cells
        .strip_prefix(rows)
        .is_some_and(|rest| rest.iter().all(|cell| *cell == MARK))
}

/// Whether the codes over as many symbols as there are rows have these sets and followers.
pub fn has_sets(rt: &impl Abort, codes: &[u8], expected: Sets, rows: &[u64]) -> Result<(), Fail> {
    let mut cells = [MARK; 70];
    let found = sets(codes, rows.len(), &mut cells)?;
    assert_eq!(rt; found, expected);
    assert!(rt; written(&cells, rows));
    Ok(())
}

/// Whether the codes over so many symbols are refused, with all cells as they were.
pub fn refuses(rt: &impl Abort, codes: &[u8], symbols: usize, fault: Fault) {
    let mut cells = [MARK; 70];
    assert_eq!(rt; check_codes(codes, symbols).err(), Some(fault));
    assert_eq!(rt; sets(codes, symbols, &mut cells).err(), Some(fault));
    assert!(rt; written(&cells, &[]));
}

/// Whether the pair, or none, is the least that competes.
pub fn competes<S: Symbol>(
    rt: &impl Abort,
    codes: &[u8],
    symbols: &[S],
    pair: Option<Pair>,
) -> Result<(), Fail> {
    assert_eq!(rt; competing(codes, symbols)?, pair);
    Ok(())
}

/// Whether the model is refused for the pair, with all cells as they were.
pub fn ambiguous<S: Symbol>(
    rt: &impl Abort,
    codes: &[u8],
    symbols: &[S],
    first: usize,
    second: usize,
) -> Result<(), Fail> {
    competes(rt, codes, symbols, Some(Pair { first, second }))?;
    let mut cells = [MARK; 70];
    assert_eq!(rt;
        study(codes, symbols, &mut cells).err(),
        Some(Fault::Ambiguous { first, second })
    );
    assert!(rt; written(&cells, &[]));
    Ok(())
}

/// Whether the word of one-letter names, tried on the model, tells this.
pub fn tells(rt: &impl Abort, heap: Global, case: &Tried) -> Result<(), Fail> {
    let symbols = spelled(heap, case.names)?;
    let word = spelled(heap, case.word)?;
    let mut cells = [MARK; 70];
    let sets = study(case.codes, &symbols, &mut cells)?;
    let automaton = Automaton {
        sets,
        followers: &cells,
        symbols: &symbols,
    };
    assert_eq!(rt; automaton.trial(&word), case.told);
    Ok(())
}
