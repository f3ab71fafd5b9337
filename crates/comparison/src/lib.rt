//! Comparisons of a place with a reader, and lists of calls on a shelf.
#![tactic(auto)]

mod calls;
mod comparing;
pub mod laws;
mod replays;

pub use calls::{Answer, Call, TooFewAnswers};
pub use comparing::compare;
pub use replays::{call, replay, replay_new};
