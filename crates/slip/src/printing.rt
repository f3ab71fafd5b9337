// What is printed for a book.
ghost use Rattle.std.specs.Prelude.{◌≡◌, ◌≤◌, [], ◌∷◌, ◌++◌, length, false, IfOk};
ghost use Rattle.book.specs.Entries.{bodies_in};
ghost use Rattle.slip.specs.Printed.{Lines, Printed};
ghost use Rattle.slip.specs.Desks.{Has, Models};
ghost use Rattle.slip.specs.Loads.{Loads};
ghost use Rattle.slip.specs.Refusals.{refusal_shown};

use crate::desks::Desk;
use crate::refusals::Refusal;
use book::reading::Book;
use std::alloc::{AllocError, Global};

/// What is printed for a book, and whether there is no fault.
// The text is printed alike in both cases, so it is no Result: the flag is only the program's exit status.
#[derive(Drop)]
pub struct Slip {
    pub text: Vec<u8>,
    pub whole: bool,
}

/// Loads the models of all bodies, up to the first that gives none.
fn load_all(desk: &mut Desk, book: &Book) -> Result<(), Refusal>
    ensures { Has desk.old [] → Loads (bodies_in book.now.bytes.now) result desk.new }
{
    // A book has its bodies by number, which is also the place of each.
    for body in 0..book.count() {
        let text = book.body(body).unwrap();
        desk.load(body, text)
            .map_err(|fault| Refusal::Body { body, fault })?;
    }
    Ok(())
}

/// The lines of so many models, each against the next.
fn lines(heap: Global, desk: &mut Desk, count: usize) -> Result<Vec<u8>, AllocError>
    requires { (ms : Models) × Has desk.old ms × (length ms ≡ count) × (1 ≤ count) }
    ensures { (ms : Models) → Has desk.old ms → length ms ≡ count → IfOk result (λ v. Lines 0 ms v.items) }
{
    let mut text = Vec::new(heap);
    // Each place with the next one: no list is read at k.
    for k in 0..count - 1 {
        desk.tell(k, k + 1, &mut text)?;
    }
    Ok(text)
}

/// What is printed for a refusal.
fn refused(heap: Global, refusal: Refusal) -> Result<Slip, AllocError>
    ensures { IfOk result (λ s. (s.text.items ≡ refusal_shown refusal ++ 10 ∷ []) × (s.whole ≡ false)) }
{
    let text = format!(in heap; "{refusal}\n")?.into_bytes();
    Ok(Slip { text, whole: false })
}

/// What is printed for a book.
// A function of its own, and never inlined, since a desk is large: bytes that are no book take neither its time nor its stack.
#[inline(never)]
fn slip_of_book(heap: Global, book: &Book) -> Result<Slip, AllocError>
    ensures { IfOk result (λ s. Printed book.now.bytes.now s.text.items s.whole) }
{
    let mut desk = Desk::new();
    match load_all(&mut desk, book) {
        Ok(()) => {
            let text = lines(heap, &mut desk, book.count())?;
            Ok(Slip { text, whole: true })
        }
        Err(refusal) => refused(heap, refusal),
    }
}

/// What is printed for the bytes of a book: a line for each model and the next, once all are loaded; or one line where the bytes
/// are no book, or for the first body that gives no model.
pub fn slip_of(heap: Global, bytes: &[u8]) -> Result<Slip, AllocError>
    ensures { IfOk result (λ s. Printed bytes.now s.text.items s.whole) }
{
    match Book::read(bytes) {
        Ok(book) => slip_of_book(heap, &book),
        Err(fault) => refused(heap, fault.into()),
    }
}
