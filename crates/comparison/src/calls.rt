// Calls on a shelf as values, and their answers.
ghost use Rattle.std.specs.Prelude.{◌≡◌};

use models::trials::Trial;

/// A call on a shelf; a comparison is with the reader that it names.
#[derive(Clone, Copy)]
pub enum Call<'a, S, R> {
    Load {
        place: usize,
        codes: &'a [u8],
        symbols: &'a [S],
    },
    Withdraw {
        place: usize,
    },
    Trial {
        place: usize,
        word: &'a [S],
    },
    Compare {
        place: usize,
        reader: &'a R,
    },
}

/// The answer to a call that was not refused.
// By the project's rules an answer to a call is an enum with the rules' own names (yes, no, included, missed): one for all calls, since
// a list of answers holds them side by side, and so with no Option or `Trial` within.
#[derive(Clone, Copy, PartialEq, Eq, Debug)]
pub enum Answer {
    /// The model is loaded, or withdrawn.
    Done,
    /// The word is one of the model.
    Yes,
    /// It is none; so long is its longest beginning that also begins one.
    No { longest: usize },
    /// The reader takes every word of the model.
    Included,
    /// The least word of the model that the reader doesn't take has so many positions.
    Missed { length: usize },
}

impl From<Trial> for Answer {
    ghost use Rattle.comparison.specs.Answers.{trial_answer};

    ghost from_gives = { λ trial answer. answer ≡ trial_answer trial };

    fn from(trial: Trial) -> Answer {
        match trial {
            Trial::Yes => Answer::Yes,
            Trial::No { longest } => Answer::No { longest },
        }
    }
}

/// What a comparison found: how many positions the least word has that the reader misses, if it misses one.
impl From<Option<usize>> for Answer {
    ghost use Rattle.comparison.specs.Answers.{compared_answer};

    ghost from_gives = { λ missed answer. answer ≡ compared_answer missed };

    fn from(missed: Option<usize>) -> Answer {
        match missed {
            None => Answer::Included,
            Some(length) => Answer::Missed { length },
        }
    }
}

/// There are more calls than cells for their answers.
#[derive(Clone, Copy, PartialEq, Eq, Debug)]
pub struct TooFewAnswers;
