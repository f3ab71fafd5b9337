// The parts of a model, written from the last to the first.
ghost use Rattle.std.specs.Prelude.{◌≡◌, ◌≤◌, ℕ, List, [], ◌∷◌, ◌++◌, length};
ghost use Rattle.codes.specs.Tree.{Tree, postfix, leaves};
ghost use Rattle.text_writer.specs.Written.{mark_opens, with_sign, text};
ghost use Rattle.text_writer.specs.Drafts.{Said, SaidTree, chain_opens, first_of, chain_text};

use crate::draft::Draft;
use crate::place::Place;
use codes::Code;
use grammar::Chain;
use symbols::name_rows::NameRow;

/// The codes and names that are left to write.
#[derive(Clone, Copy)]
pub struct Rest<'a> {
    pub codes: &'a [u8],
    pub names: &'a [NameRow],
}

/// The place of a chain's first part.
fn first_place(chain: Chain) -> Place
    ensures { result ≡ first_of chain }
{
    match chain {
        Chain::Seq => Place::Commas,
        Chain::Choice => Place::Bars,
    }
}

/// Whether a chain of parts is a group of its own: not where it goes on a chain of its sign.
fn opens_chain(chain: Chain, place: Place) -> bool
    ensures { result ≡ chain_opens chain place }
{
    place != first_place(chain)
}

/// Whether a part that ends in a mark is bracketed.
fn opens_mark(place: Place) -> bool
    ensures { result ≡ mark_opens place }
{
    place == Place::Marked
}

/// Writes the last name that is left.
fn write_name<'a>(rest: Rest<'a>, draft: &mut Draft) -> Rest<'a>
    ensures said { (n : List ℕ) → Said rest.entry [] (n ∷ []) n draft.old result draft.new }
    ensures falls { length result.codes.now ≤ length rest.entry.codes.now }
{
    let Some((name, names)) = rest.names.split_last() else {
        return rest;
    };
    draft.push_all(name.text());
    Rest { names, ..rest }
}

/// Writes the last two parts that are left as a chain.
#[cycle(write_chain_write_marked_write_part)]
fn write_chain<'a>(rest: Rest<'a>, chain: Chain, place: Place, draft: &mut Draft) -> Rest<'a>
    ensures said { (a b : Tree (List ℕ)) → Said rest.entry (postfix a ++ postfix b) (leaves a ++ leaves b) (chain_text chain place a b) draft.old result draft.new }
    ensures falls { length result.codes.now ≤ length rest.entry.codes.now }
{
    let opens = opens_chain(chain, place);
    draft.push_if(opens, b')');
    let middle = write_part(rest, Place::Alone, draft);
    draft.push(chain.sign());
    let start = write_part(middle, first_place(chain), draft);
    draft.push_if(opens, b'(');
    start
}

/// Writes the last part that is left with its mark.
// The mark is its byte, since all that is done with it is to write it.
#[cycle(write_chain_write_marked_write_part)]
fn write_marked<'a>(rest: Rest<'a>, mark: u8, place: Place, draft: &mut Draft) -> Rest<'a>
    ensures said { (a : Tree (List ℕ)) → Said rest.entry (postfix a) (leaves a) (with_sign place mark (text Place.Marked a)) draft.old result draft.new }
    ensures falls { length result.codes.now ≤ length rest.entry.codes.now }
{
    let opens = opens_mark(place);
    draft.push_if(opens, b')');
    draft.push(mark);
    let start = write_part(rest, Place::Marked, draft);
    draft.push_if(opens, b'(');
    start
}

/// Writes the last part that is left, and says what is left then.
#[cycle(write_chain_write_marked_write_part)]
pub(crate) fn write_part<'a>(rest: Rest<'a>, place: Place, draft: &mut Draft) -> Rest<'a>
    ensures said { SaidTree rest.entry place draft.old result draft.new }
    ensures falls { length result.codes.now ≤ length rest.entry.codes.now }
{
    let Some((code, codes)) = rest.codes.split_last() else {
        return rest;
    };
    let rest = Rest { codes, ..rest };
    match Code::try_from(*code) {
        Ok(Code::Empty) => {
            draft.push_all(b"EMPTY");
            rest
        }
        Ok(Code::Symbol) => write_name(rest, draft),
        Ok(Code::Then) => write_chain(rest, Chain::Seq, place, draft),
        Ok(Code::Either) => write_chain(rest, Chain::Choice, place, draft),
        Ok(Code::Optional) => write_marked(rest, b'?', place, draft),
        Ok(Code::Star) => write_marked(rest, b'*', place, draft),
        Ok(Code::Plus) => write_marked(rest, b'+', place, draft),
        Err(_) => rest,
    }
}
