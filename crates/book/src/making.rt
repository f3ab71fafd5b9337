// The making of a book, into a lent list of bytes.
ghost use Rattle.std.specs.Prelude.{◌≡◌, ◌+◌, ◌*◌, ◌<◌, ◌≤◌, ◌++◌, length, MatchOption, MatchResult};
ghost use Rattle.book.specs.Books.{two_bytes, together, entries_from, book_of};
ghost use Rattle.book.specs.Pens.{Writes};
ghost use Rattle.book.specs.Makings.{contents, Made, Unmade};

use super::pens::Pen;
use super::{MOST_BODIES, MOST_BYTES};
use faults::{Fault, Layer};

/// The length of the book of these bodies, unless it is over 16,384.
fn book_size(bodies: &[&[u8]]) -> Option<usize>
    requires { length bodies.now ≤ 16 }
    ensures { MatchOption result (16384 < length (book_of (contents bodies.now))) (λ n. (n ≡ length (book_of (contents bodies.now))) × (n ≤ 16384)) }
{
    let mut size = 1 + 4 * bodies.len();
    for body in bodies {
        if body.len() > MOST_BYTES - size {
            return None;
        }
        size += body.len();
    }
    Some(size)
}

/// Writes an entry.
fn put_entry(pen: &mut Pen, offset: usize, size: usize)
    requires room { pen.old.at + 4 ≤ length pen.old.out.now }
    requires offset { offset < 65536 }
    requires size { size < 65536 }
    ensures { Writes pen.old pen.new (two_bytes offset ++ two_bytes size) }
{
    pen.put(&(offset as u16).to_le_bytes());
    pen.put(&(size as u16).to_le_bytes());
}

/// Writes an entry for each body.
fn put_entries(pen: &mut Pen, bodies: &[&[u8]])
    requires room { pen.old.at + 4 * length bodies.now ≤ length pen.old.out.now }
    requires short { length (book_of (contents bodies.now)) ≤ 16384 }
    ensures { Writes pen.old pen.new (entries_from (1 + 4 * length bodies.now) (contents bodies.now)) }
{
    let mut offset = 1 + 4 * bodies.len();
    for body in bodies {
        put_entry(pen, offset, body.len());
        offset += body.len();
    }
}

/// Writes the bodies, one after the other.
fn put_bodies(pen: &mut Pen, bodies: &[&[u8]])
    requires { pen.old.at + length (together (contents bodies.now)) ≤ length pen.old.out.now }
    ensures { Writes pen.old pen.new (together (contents bodies.now)) }
{
    for body in bodies {
        pen.put(body);
    }
}

/// Writes the book of the bodies.
fn put_book(pen: &mut Pen, bodies: &[&[u8]])
    requires few { length bodies.now ≤ 16 }
    requires short { length (book_of (contents bodies.now)) ≤ 16384 }
    requires room { pen.old.at + length (book_of (contents bodies.now)) ≤ length pen.old.out.now }
    ensures { Writes pen.old pen.new (book_of (contents bodies.now)) }
{
    pen.put(&[bodies.len() as u8]);
    put_entries(pen, bodies);
    put_bodies(pen, bodies);
}

/// Writes the book of the bodies first into the list, and gives its length. No body or over 16 give fault 13 at 0, a book of over 16,384 bytes 5,
/// and a list too short for it 11.
pub fn make(bodies: &[&[u8]], out: &mut [u8]) -> Result<usize, Fault>
    ensures { MatchResult result (λ n. Made (contents bodies.now) out.old out.new n) (λ f. Unmade (contents bodies.now) (length out.old) f × (out.new ≡ out.old)) }
{
    if !(1..=MOST_BODIES).contains(&bodies.len()) {
        return Err(Fault::WrongBook { entry: 0 });
    }
    let size = book_size(bodies).ok_or(Fault::TooLarge {
        layer: Layer::Book,
        limit: MOST_BYTES,
    })?;
    if out.len() < size {
        return Err(Fault::ShortList {
            layer: Layer::Book,
            cells: size,
        });
    }
    let mut pen = Pen::new(out);
    put_book(&mut pen, bodies);
    Ok(pen.at)
}
