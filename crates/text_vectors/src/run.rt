// One reading, held to what was worked out.
use faults::Fault;
use std::process::Abort;
use std::test::Fail;
use symbols::name_rows::NameRow;
use text_reader::{Counts, read};

/// What each cell of the list of codes holds before a reading: it is no code.
const MARK: u8 = 9;

/// What the length of each row holds before a reading: no name has it.
const LEN: u8 = 99;

/// What each row of the list of names holds before a reading.
const BLANK: NameRow = NameRow {
    bytes: [MARK; 32],
    len: LEN,
};

/// Whether all cells from `from` on are as they were.
// Other test crates have such checks of their own, since one crate for all would be proved for tests alone.
fn kept(codes: &[u8], from: usize) -> bool {
    codes.iter().skip(from).all(|code| *code == MARK)
}

/// Whether a row is as it was.
fn row_kept(row: &NameRow) -> bool {
    *row == BLANK
}

/// Whether all rows from `from` on are as they were.
fn rows_kept(names: &[NameRow], from: usize) -> bool {
    names.iter().skip(from).all(row_kept)
}

/// Whether a row holds the bytes of a name, then zeros, and its length.
// Byte by byte, and not by `NameRow::of`, which is the program's own.
fn holds(row: &NameRow, name: &[u8]) -> bool {
    row.len as usize == name.len()
        && row.bytes.starts_with(name)
        && row.bytes.iter().skip(name.len()).all(|byte| *byte == 0)
}

/// Whether the text is read as these codes and these names, and no other cell is changed.
pub fn reads(rt: &impl Abort, text: &[u8], codes: &[u8], names: &[&[u8]]) -> Result<(), Fail> {
    let mut cells = [MARK; 1280];
    let mut rows = [BLANK; 64];
    let counts = read(text, &mut cells, &mut rows)?;
    assert_eq!(rt; counts.codes, codes.len());
    assert_eq!(rt; counts.names, names.len());
    assert!(rt; cells.starts_with(codes));
    assert!(rt; names.len() <= rows.len());
    for (row, name) in rows.iter().zip(names) {
        assert!(rt; holds(row, name));
    }
    assert!(rt; kept(&cells, codes.len()));
    assert!(rt; rows_kept(&rows, names.len()));
    Ok(())
}

/// Whether the text is refused with this fault, and no cell of the lists is changed.
fn refused(rt: &impl Abort, text: &[u8], codes: &mut [u8], names: &mut [NameRow], fault: Fault) {
    assert_eq!(rt; read(text, codes, names), Err(fault));
    assert!(rt; kept(codes, 0));
    assert!(rt; rows_kept(names, 0));
}

/// The same, with lists that are just long enough.
pub fn refuses(rt: &impl Abort, text: &[u8], fault: Fault) {
    let mut cells = [MARK; 1280];
    let mut rows = [BLANK; 64];
    refused(rt, text, &mut cells, &mut rows, fault);
}

/// The same, with lists of so many cells.
pub fn refuses_lists(rt: &impl Abort, text: &[u8], codes: usize, names: usize, fault: Fault) {
    let mut cells = [MARK; 1280];
    let mut rows = [BLANK; 64];
    assert!(rt; codes <= 1280);
    assert!(rt; names <= 64);
    refused(rt, text, &mut cells[..codes], &mut rows[..names], fault);
}
