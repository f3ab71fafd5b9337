// The card of faults: every way in which a call refuses what it is given.
#![tactic(auto)]

ghost use Rattle.std.specs.Prelude.{◌≡◌, Some};
ghost use Rattle.faults.specs.Card.{number, layer, values};
ghost use Rattle.faults.specs.Shown.{layer_shown, values_shown, numbered_shown, fault_shown};

use std::error::Error;
use std::fmt;

/// The part of the program that a fault belongs to.
#[derive(Clone, Copy, PartialEq, Eq, Debug, Drop)]
pub enum Layer {
    Text,
    Model,
    Shelf,
    Compare,
    Line,
    Reader,
    Book,
    Cue,
}

/// What a fault names: an offset, an index, a limit, a place, a number of cells; or two positions.
#[derive(Clone, Copy, PartialEq, Eq, Debug, Drop)]
pub enum Values {
    One(usize),
    Two(usize, usize),
}

/// Why a call was refused. A refused call changes no list and no shelf.
#[derive(Clone, Copy, PartialEq, Eq, Debug, Drop)]
pub enum Fault {
    /// 1: the byte at this offset of the text belongs to no class but "other".
    StrangeByte { at: usize },
    /// 2: the token at this offset can't follow, or the text ends early, which counts at its length.
    Unexpected { at: usize },
    /// 3: the name at this offset has over 32 bytes.
    LongName { at: usize },
    /// 4: the bracket at this offset opens a seventeenth level.
    TooDeep { at: usize },
    /// 5: something is too large: a text (its offset), a model or a book (the limit).
    TooLarge { layer: Layer, limit: usize },
    /// 6: the code at this index can't be done, or the end, which counts at the number of codes.
    Malformed { at: usize },
    /// 7: these two positions compete.
    Ambiguous { first: usize, second: usize },
    /// 8: there is no such place.
    NoPlace { place: usize },
    /// 9: the place is taken.
    Taken { place: usize },
    /// 10: the place is empty.
    Vacant { place: usize },
    /// 11: a list is too short: the cells needed.
    ShortList { layer: Layer, cells: usize },
    /// 12: the limit doesn't fit: the greatest that does.
    Unfit { greatest: usize },
    /// 13: the entry of a book is wrong or cut, itself or its body.
    WrongBook { entry: usize },
    /// 14: the code 0 at this index stands among others, or the symbol's row at this index is no name.
    Unwritable { index: usize },
    /// 15: a byte of a cue is out of range: 0 for its status, 1 for its data byte.
    WrongCue { byte: usize },
}

impl Fault {
    /// The fault's number on the card.
    // A number, since the card gives each fault one, which is printed.
    pub fn number(&self) -> u8
        ensures { result ≡ number self.now }
    {
        match self {
            Fault::StrangeByte { .. } => 1,
            Fault::Unexpected { .. } => 2,
            Fault::LongName { .. } => 3,
            Fault::TooDeep { .. } => 4,
            Fault::TooLarge { .. } => 5,
            Fault::Malformed { .. } => 6,
            Fault::Ambiguous { .. } => 7,
            Fault::NoPlace { .. } => 8,
            Fault::Taken { .. } => 9,
            Fault::Vacant { .. } => 10,
            Fault::ShortList { .. } => 11,
            Fault::Unfit { .. } => 12,
            Fault::WrongBook { .. } => 13,
            Fault::Unwritable { .. } => 14,
            Fault::WrongCue { .. } => 15,
        }
    }

    /// The layer that the fault belongs to.
    pub fn layer(&self) -> Layer
        ensures { result ≡ layer self.now }
    {
        match *self {
            Fault::StrangeByte { .. }
            | Fault::Unexpected { .. }
            | Fault::LongName { .. }
            | Fault::TooDeep { .. }
            | Fault::Unwritable { .. } => Layer::Text,
            Fault::TooLarge { layer, .. } | Fault::ShortList { layer, .. } => layer,
            Fault::Malformed { .. } | Fault::Ambiguous { .. } => Layer::Model,
            Fault::NoPlace { .. } | Fault::Taken { .. } | Fault::Vacant { .. } => Layer::Shelf,
            Fault::Unfit { .. } => Layer::Reader,
            Fault::WrongBook { .. } => Layer::Book,
            Fault::WrongCue { .. } => Layer::Cue,
        }
    }

    /// What the fault names.
    pub fn values(&self) -> Values
        ensures { result ≡ values self.now }
    {
        match *self {
            Fault::Ambiguous { first, second } => Values::Two(first, second),
            Fault::StrangeByte { at: value }
            | Fault::Unexpected { at: value }
            | Fault::LongName { at: value }
            | Fault::TooDeep { at: value }
            | Fault::TooLarge { limit: value, .. }
            | Fault::Malformed { at: value }
            | Fault::NoPlace { place: value }
            | Fault::Taken { place: value }
            | Fault::Vacant { place: value }
            | Fault::ShortList { cells: value, .. }
            | Fault::Unfit { greatest: value }
            | Fault::WrongBook { entry: value }
            | Fault::Unwritable { index: value }
            | Fault::WrongCue { byte: value } => Values::One(value),
        }
    }
}

impl fmt::Display for Layer {
    ghost output = { λ l. Some (layer_shown l) };

    fn fmt<W: fmt::Write>(&self, f: &mut fmt::Formatter<W>) -> fmt::Result {
        f.write_str(match self {
            Layer::Text => "text",
            Layer::Model => "model",
            Layer::Shelf => "shelf",
            Layer::Compare => "compare",
            Layer::Line => "line",
            Layer::Reader => "reader",
            Layer::Book => "book",
            Layer::Cue => "cue",
        })
    }
}

impl fmt::Display for Values {
    ghost output = { λ v. Some (values_shown v) };

    fn fmt<W: fmt::Write>(&self, f: &mut fmt::Formatter<W>) -> fmt::Result {
        match self {
            Values::One(value) => write!(f, "{value}"),
            Values::Two(first, second) => write!(f, "{first} and {second}"),
        }
    }
}

/// A fault without its layer, as `13 at 0`.
#[derive(Clone, Copy, PartialEq, Eq, Debug, Drop)]
pub struct Numbered(pub Fault);

impl fmt::Display for Numbered {
    ghost output = { λ n. Some (numbered_shown n.0) };

    fn fmt<W: fmt::Write>(&self, f: &mut fmt::Formatter<W>) -> fmt::Result {
        write!(f, "{} at {}", self.0.number(), self.0.values())
    }
}

impl fmt::Display for Fault {
    ghost output = { λ x. Some (fault_shown x) };

    fn fmt<W: fmt::Write>(&self, f: &mut fmt::Formatter<W>) -> fmt::Result {
        write!(f, "{} {}", self.layer(), Numbered(*self))
    }
}

impl Error for Fault {}
