// One writing, held to what was worked out.
use arrayvec::{ArrayVec, CapacityError};
use faults::Fault;
use std::process::Abort;
use std::test::Fail;
use symbols::name_rows::NameRow;
use text_writer::write;

// How many cells the list has, and what each holds before a writing: no text has it.
const CELLS: usize = 64;

const MARK: u8 = 9;

// The rows of at most eight names. They are pushed, since `collect` takes a heap.
fn rows(names: &[&[u8]]) -> Result<ArrayVec<NameRow, 8>, CapacityError<NameRow>> {
    let mut rows = ArrayVec::new();
    for name in names {
        rows.try_push(NameRow::of(name))?;
    }
    Ok(rows)
}

// The codes and names are written as the text, and no other cell is changed. Other test crates have such checks of their own, since one
// crate for all would be proved for tests alone.
pub fn writes(rt: &impl Abort, codes: &[u8], names: &[&[u8]], text: &[u8]) -> Result<(), Fail> {
    let rows = rows(names)?;
    let mut cells = [MARK; CELLS];
    assert_eq!(rt; write(codes, rows.as_slice(), &mut cells), Ok(text.len()));
    assert!(rt; text.len() <= CELLS);
    let (written, others) = cells.split_at(text.len());
    assert_eq!(rt; written, text);
    assert!(rt; others.iter().all(|cell| *cell == MARK));
    Ok(())
}

// The codes and names are refused in a list of so many cells, and no cell is changed.
pub fn refuses(
    rt: &impl Abort,
    codes: &[u8],
    names: &[&[u8]],
    room: usize,
    fault: Fault,
) -> Result<(), Fail> {
    assert!(rt; room <= CELLS);
    let rows = rows(names)?;
    let mut cells = [MARK; CELLS];
    assert_eq!(rt;
        write(codes, rows.as_slice(), &mut cells[..room]),
        Err(fault)
    );
    assert_eq!(rt; cells, [MARK; CELLS]);
    Ok(())
}
