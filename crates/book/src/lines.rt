// The line that tells what a comparison found, into a lent list of bytes.
ghost use Rattle.std.specs.Prelude.{◌≡◌, ◌+◌, ◌*◌, ◌<◌, ◌≤◌, [], ◌∷◌, ◌++◌, length, decimal, MatchResult};
ghost use Rattle.arrayvec.specs.ArrayVec.{array_vec_len};
ghost use Rattle.book.specs.Line.{symbols_shown, forms_shown, dots, places_shown, verdict_shown, LineWritten, LineRefused};

use super::pens::Pen;
use arrayvec::ArrayVec;
use faults::{Fault, Layer};
use itoa::Buffer;
use symbols::Printable;

/// The most symbols that a line shows.
pub const MOST_SHOWN: usize = 8;

/// More bytes than any line has.
pub const MOST_TEXT: usize = 320;

/// How many symbols are shown of a word of this length, if there is one.
pub fn shown_symbols(missed: Option<usize>) -> usize
    ensures { result ≡ symbols_shown missed }
{
    missed.map_or(0, |length| length.min(MOST_SHOWN))
}

/// Adds bytes that there is room for.
fn add(text: &mut ArrayVec<u8, MOST_TEXT>, bytes: &[u8])
    requires { array_vec_len text.old + length bytes.now ≤ 320 }
    ensures { text.new.items ≡ text.old.items ++ bytes.now }
{
    text.try_extend_from_slice(bytes).unwrap();
}

/// Adds a number in decimal.
fn add_decimal(text: &mut ArrayVec<u8, MOST_TEXT>, n: usize)
    requires { array_vec_len text.old + length (decimal n) ≤ 320 }
    ensures { text.new.items ≡ text.old.items ++ decimal n }
{
    add(text, Buffer::new().format(n).as_bytes());
}

/// Adds a space and the form of each symbol.
fn add_forms<P: Printable>(text: &mut ArrayVec<u8, MOST_TEXT>, symbols: &[P])
    requires { array_vec_len text.old + length (forms_shown P.Printable.written symbols.now) ≤ 320 }
    ensures { text.new.items ≡ text.old.items ++ forms_shown P.Printable.written symbols.now }
{
    for symbol in symbols {
        add(text, b" ");
        add(text, symbol.written().text());
    }
}

/// Adds the two places.
fn add_places(text: &mut ArrayVec<u8, MOST_TEXT>, first: usize, second: usize)
    requires { array_vec_len text.old + length (places_shown first second) ≤ 320 }
    ensures { text.new.items ≡ text.old.items ++ places_shown first second }
{
    add_decimal(text, first);
    add(text, b" in ");
    add_decimal(text, second);
}

/// Adds the sign for a word of more symbols than are shown, and the end of the line.
fn add_end(text: &mut ArrayVec<u8, MOST_TEXT>, count: usize)
    requires { array_vec_len text.old + 5 ≤ 320 }
    ensures { text.new.items ≡ text.old.items ++ (dots count ++ (10 ∷ [])) }
{
    if count > MOST_SHOWN {
        add(text, b" ...\n");
    } else {
        add(text, b"\n");
    }
}

/// Adds what follows the places, with the symbols that are shown.
fn add_verdict<P: Printable>(text: &mut ArrayVec<u8, MOST_TEXT>, missed: Option<usize>, shown: &[P])
    requires most { length shown.now ≤ 8 }
    requires room { array_vec_len text.old + 305 ≤ 320 }
    ensures { text.new.items ≡ text.old.items ++ verdict_shown P.Printable.written missed shown.now }
{
    match missed {
        None => add(text, b": included\n"),
        Some(length) => {
            add(text, b": not, ");
            add_decimal(text, length);
            add(text, b" symbols:");
            add_forms(text, shown);
            add_end(text, length);
        }
    }
}

/// Writes the line of two places first into the list, and gives its length. `missed` is how many symbols the word has that shows that the first model is
/// not included in the second, and none where it is included; the symbols are the first of that word. The first place that is not below 16 gives fault 8,
/// fewer symbols than are shown 11, and a list too short for the line 11.
pub fn line<P: Printable>(
    first: usize,
    second: usize,
    missed: Option<usize>,
    symbols: &[P],
    out: &mut [u8],
) -> Result<usize, Fault>
    ensures { MatchResult result (λ n. LineWritten P.Printable.written first second missed symbols.now out.old out.new n) (λ f. LineRefused P.Printable.written first second missed symbols.now (length out.old) f × (out.new ≡ out.old)) }
{
    if first >= 16 {
        return Err(Fault::NoPlace { place: first });
    }
    if second >= 16 {
        return Err(Fault::NoPlace { place: second });
    }
    let shown = shown_symbols(missed);
    if symbols.len() < shown {
        return Err(Fault::ShortList {
            layer: Layer::Line,
            cells: shown,
        });
    }
    let mut text = ArrayVec::new();
    add_places(&mut text, first, second);
    add_verdict(&mut text, missed, &symbols[..shown]);
    if out.len() < text.len() {
        return Err(Fault::ShortList {
            layer: Layer::Line,
            cells: text.len(),
        });
    }
    let mut pen = Pen::new(out);
    pen.put(&text);
    Ok(pen.at)
}
