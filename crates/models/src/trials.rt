// What a trial of a word tells.

/// What a trial of a word tells: it is a word of the model; or how long its longest beginning is that also begins one.
// No Option and no Result: the rules of the project name the answers to calls, yes and no, so the two have names of their own here; a no
// tells a length, and it is an answer, which `?` must not hand on as a refusal.
#[derive(Clone, Copy, PartialEq, Eq, Debug)]
pub enum Trial {
    Yes,
    No { longest: usize },
}
