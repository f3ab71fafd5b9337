// The writer of content models: from codes and names to clean text.
#![tactic(auto)]

ghost use Rattle.std.specs.Prelude.{◌≡◌, ℕ, not, ◌&&◌, List, map, length, ◌==◌, nat_le, slice_index};
ghost use Rattle.codes.specs.Tree.{Tree};
ghost use Rattle.symbols.specs.NameRows.{row_bytes};
ghost use Rattle.text_writer.specs.Written.{written};
ghost use Rattle.text_writer.specs.Writes.{Sayable, Copied, Writes, OneAnswer};

mod checks;
pub mod draft;
pub mod parts;
pub mod place;

use checks::{check_levels, check_names, check_parts};
use codes::check;
use draft::Draft;
use faults::{Fault, Layer};
use parts::{Rest, write_part};
use place::Place;
use symbols::name_rows::NameRow;

/// Whether the codes are a name alone, or a name with its mark: text of these does not begin with a bracket.
fn is_bare(codes: &[u8]) -> bool
    ensures { result ≡ (nat_le (length codes.now) 2 && not (slice_index codes.now 0 == 0)) }
{
    // 0 is the code of `Code::Empty`.
    match codes {
        [first] | [first, _] => *first != 0,
        _ => false,
    }
}

/// The text of codes and names that a text can say.
fn draft_of(codes: &[u8], names: &[NameRow]) -> Draft
    ensures { (x : Tree (List ℕ)) → Sayable codes.now (map row_bytes names.now) x → result ≡ written x }
{
    let mut draft = Draft::new();
    let bare = is_bare(codes);
    draft.push_if(bare, b')');
    write_part(Rest { codes, names }, Place::Alone, &mut draft);
    draft.push_if(bare, b'(');
    draft
}

/// Copies the text to the beginning of the list, and says how long it is.
fn copy_text(text: &[u8], out: &mut [u8]) -> Result<usize, Fault>
    ensures { Copied text.now out.old result out.new }
{
    if out.len() < text.len() {
        return Err(Fault::ShortList {
            layer: Layer::Text,
            cells: text.len(),
        });
    }
    out[..text.len()].copy_from_slice(text);
    Ok(text.len())
}

/// Writes the text of a model into `out`, and says how many bytes it has. A refusal leaves `out` as it was.
pub fn write(codes: &[u8], names: &[NameRow], out: &mut [u8]) -> Result<usize, Fault>
    ensures { Writes codes.now names.now out.old result out.new }
{
    check(codes, names.len())?;
    check_parts(codes)?;
    check_names(names)?;
    let draft = draft_of(codes, names);
    let text = draft.text();
    check_levels(text)?;
    copy_text(text, out)
}

/// Codes and names have one answer, and one content of the list afterwards.
pub fn one_answer()
    ensures { OneAnswer }
{}
