// Where a part of a model stands in its text.

/// Where a part stands: by itself, first in a chain of commas or of bars, or right before a mark.
#[derive(Clone, Copy, Debug, PartialEq, Eq)]
pub enum Place {
    Alone,
    Commas,
    Bars,
    Marked,
}
