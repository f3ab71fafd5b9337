// The calls on a desk.
ghost use Rattle.std.specs.Prelude.{◌≡◌, [], Some};
ghost use Rattle.std.specs.List.{slice_get};
ghost use Rattle.language.specs.Meaning.{Model, given};
ghost use Rattle.symbols.specs.declared.name_rows.NameRow.{NameRow};
ghost use Rattle.tables.specs.Tables.{Table};
ghost use Rattle.comparison.specs.Runs.{request, loads};
ghost use Rattle.slip.specs.Desks.{Both, Called, Found, Has, Models, Next, OfVerdict, Puts, Reads, answer_of};

use crate::desks::{ALL, Desk, WORK};
use comparison::{Answer, Call, replay};
use faults::Fault;
use readers::Reader;
use shelf::{MOST_PAIRS, PlaceReader, Shelf};
use std::slice::from_ref;
use symbols::name_rows::NameRow;
use text_reader::{MOST_CODES, MOST_NAMES, read};

/// The call that loads the model of these codes and names into a place.
fn loading<'x, R>(place: usize, codes: &'x [u8], names: &'x [NameRow]) -> Call<'x, NameRow, R>
    ensures { (table : R → Table NameRow) → request table result ≡ loads place (given codes.now names.now) }
{
    Call::Load {
        place,
        codes,
        symbols: names,
    }
}

/// What a comparison that was not refused answered.
// A match and no TryFrom: its error would be an answer that such a comparison never gives.
fn missed(answer: Result<Answer, Fault>) -> Option<usize>
    requires { OfVerdict answer }
    ensures { answer ≡ answer_of result }
{
    match answer {
        Ok(Answer::Included) => None,
        Ok(Answer::Missed { length }) => Some(length),
        _ => unreachable!(),
    }
}

impl Desk {
    /// A desk whose places are empty.
    pub(crate) fn new() -> Desk
        ensures { Has result [] }
    {
        Desk {
            shelf: Shelf::new(),
            symbols: [NameRow::default(); ALL],
            numbers: [0; ALL],
            work: [0; WORK],
            word: [0; MOST_PAIRS],
        }
    }

    /// Makes one call.
    // A list of one call, since what is printed rests on what `replay` promises for lists of calls.
    fn make<R: Reader<NameRow>>(&mut self, call: &Call<NameRow, R>) -> Result<Answer, Fault>
        ensures { Called self.old (request R.Reader.table call.now) result self.new }
    {
        let mut answers = [Ok(Answer::Done)];
        let _room = replay(
            &mut self.shelf,
            &mut self.symbols,
            &mut self.numbers,
            &mut self.work,
            &mut self.word,
            from_ref(call),
            &mut answers,
        );
        answers[0]
    }

    /// Loads the model of these codes and names into a place.
    fn put<'x>(&mut self, place: usize, codes: &'x [u8], names: &'x [NameRow]) -> Result<(), Fault>
        ensures { (ms : Models) → Has self.old ms → Next ms place → Puts ms (given codes.now names.now) result self.new }
    {
        self.make::<PlaceReader<NameRow>>(&loading(place, codes, names))?;
        Ok(())
    }

    /// Reads a text, and loads its model into a place.
    pub(crate) fn load(&mut self, place: usize, text: &[u8]) -> Result<(), Fault>
        ensures { (ms : Models) → Has self.old ms → Next ms place → Reads ms text.now result self.new }
    {
        // Arrays, since they are lent to `read`, which tells how many cells of each it wrote.
        let mut codes = [0; MOST_CODES];
        let mut names = [NameRow::default(); MOST_NAMES];
        let counts = read(text, &mut codes, &mut names)?;
        self.put(place, &codes[..counts.codes], &names[..counts.names])
    }

    /// Compares the model of a place with that of another. The reader of that one reads copies of the lists, since calls write the
    /// lists themselves.
    pub(crate) fn compare(&mut self, first: usize, second: usize) -> Option<usize>
        requires { Both self.old first second }
        ensures { (ms : Models) (m n : Model NameRow) → Has self.old ms → slice_get ms first ≡ Some m → slice_get ms second ≡ Some n → Found m n result self.new.word × Has self.new ms }
    {
        let symbols = self.symbols;
        let numbers = self.numbers;
        let reader = self.shelf.reader(&symbols, &numbers, second);
        missed(self.make(&Call::Compare {
            place: first,
            reader: &reader,
        }))
    }
}
