// The entries of a book taken apart, and its bodies as parts of its bytes.
ghost use Rattle.std.specs.Prelude.{◌≡◌, ℕ, ◌<◌, ◌≤◌, List, [], ◌++◌, length, MatchOption, MatchResult, slice_index_or};
ghost use Rattle.book.specs.Books.{two_bytes, IsBook};
ghost use Rattle.book.specs.Entries.{count_in, body_in, bodies_in, Holds, Refused};

use super::{MOST_BODIES, MOST_BYTES};
use faults::{Fault, Layer};

/// The bytes of a book: `read` gives one only for bytes that are a book.
#[derive(Clone, Copy)]
pub struct Book<'a> {
    bytes: &'a [u8],
    ghost whole: { IsBook bytes.now (bodies_in bytes.now) },
}

/// What an entry gives: where its body begins, and the body's length.
#[derive(Clone, Copy)]
struct Entry {
    offset: usize,
    size: usize,
}

/// The first of these entries, and the others.
fn first_entry(entries: &[u8]) -> Option<(Entry, &[u8])>
    ensures { MatchOption result (length entries.now < 4) (λ p. (entries.now ≡ two_bytes p.0.offset ++ (two_bytes p.0.size ++ p.1.now)) × (p.0.offset < 65536) × (p.0.size < 65536)) }
{
    let [offset_low, offset_high, length_low, length_high, rest @ ..] = entries else {
        return None;
    };
    let entry = Entry {
        offset: usize::from(u16::from_le_bytes([*offset_low, *offset_high])),
        size: usize::from(u16::from_le_bytes([*length_low, *length_high])),
    };
    Some((entry, rest))
}

impl<'a> Book<'a> {
    /// The book of these bytes. Over 16,384 bytes give fault 5; else the first entry that is wrong or cut, itself or its body, gives 13 there,
    /// bytes left over give 13 at the count, and a bad or missing count 13 at 0.
    pub fn read(bytes: &'a [u8]) -> Result<Book<'a>, Fault>
        ensures { MatchResult result (λ b. (b.bytes.now ≡ bytes.now) × IsBook bytes.now (bodies_in bytes.now)) (λ f. Refused bytes.now f) }
    {
        if bytes.len() > MOST_BYTES {
            return Err(Fault::TooLarge {
                layer: Layer::Book,
                limit: MOST_BYTES,
            });
        }
        let [count, rest @ ..] = bytes else {
            return Err(Fault::WrongBook { entry: 0 });
        };
        let count = usize::from(*count);
        if !(1..=MOST_BODIES).contains(&count) {
            return Err(Fault::WrongBook { entry: 0 });
        }
        let mut entries = rest;
        let mut start = 1 + 4 * count;
        // k is the number that a fault names: the entries are taken from the front of what is left.
        for k in 0..count {
            let (entry, others) = first_entry(entries).ok_or(Fault::WrongBook { entry: k })?;
            if entry.offset != start || start + entry.size > bytes.len() {
                return Err(Fault::WrongBook { entry: k });
            }
            start += entry.size;
            entries = others;
        }
        if start < bytes.len() {
            return Err(Fault::WrongBook { entry: count });
        }
        Ok(Book { bytes })
    }

    /// How many bodies the book has.
    pub fn count(&self) -> usize
        ensures value { result ≡ count_in self.now.bytes.now }
        ensures bound { result < 256 }
    {
        usize::from(self.bytes[0])
    }

    /// The k-th body, a part of the book's bytes; none past the last.
    pub fn body(&self, k: usize) -> Option<&'a [u8]>
        ensures given { MatchOption result (Holds self.now.bytes.now k → ⊥) (λ p. Holds self.now.bytes.now k × (p.now ≡ body_in self.now.bytes.now k)) }
        ensures book { (bodies : List (List ℕ)) → IsBook self.now.bytes.now bodies → MatchOption result (length bodies ≤ k) (λ p. (k < length bodies) × (p.now ≡ slice_index_or bodies k [])) }
    {
        if k >= self.count() {
            return None;
        }
        let (entry, _) = first_entry(&self.bytes[1 + 4 * k..]).unwrap();
        self.bytes.get(entry.offset..entry.offset + entry.size)
    }
}
