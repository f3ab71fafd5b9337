//! The search at the largest size that a comparison can ask for: 65 × 4,097 = 266,305 nodes, with 64 labels.
#![tactic(auto)]

ghost use Rattle.std.specs.Prelude.{◌≡◌, ℕ, ◌+◌, ◌%◌, ◌<◌, ◌≤◌, length, ◌≢◌, slice_index};
ghost use Rattle.largest_walk.specs.Shapes.{tree, tree_sound, line, line_sound};

use std::{fmt, io};
use walk::{Graph, Shortage, least_word};

const NODES: usize = 266_305;

/// The last node, which is wanted in both graphs.
const LAST: u32 = 266_304;

/// The complete tree with 64 children at each inner node: 1 + 64 + 64² + 64³ = 266,305 nodes.
/// The children of the node n are 64 n + 1 to 64 n + 64, by the labels 1 to 64.
/// One word leads to each node. The last node is 266,304 = 64 · 4,160 + 64, where 4,160 = 64 · 64 + 64 and 64 = 64 · 0 + 64,
/// so its word is 64 64 64. It is the last of all nodes to be entered.
struct Tree;

impl Graph for Tree {
    ghost meaning = { λ _. tree };

    ghost sound = { λ _. tree_sound };

    fn nodes(&self) -> usize {
        NODES
    }

    fn labels(&self) -> u32 {
        64
    }

    fn start(&self) -> u32 {
        0
    }

    fn step(&self, node: u32, label: u32) -> Option<u32> {
        ((1..65).contains(&label) && node < 4_161).then(|| 64 * node + label)
    }

    fn is_wanted(&self, node: u32) -> bool {
        node == LAST
    }
}

/// All nodes in a line: the one edge from the node n leads to n + 1, by the label n mod 64 + 1.
/// So the word of the last node has 266,304 labels, and the label at its place k, from 0 on, is k mod 64 + 1.
// Beside the tree in an impl of its own: the meaning of a graph goes with its type.
struct Line;

impl Graph for Line {
    ghost meaning = { λ _. line };

    ghost sound = { λ _. line_sound };

    fn nodes(&self) -> usize {
        NODES
    }

    fn labels(&self) -> u32 {
        64
    }

    fn start(&self) -> u32 {
        0
    }

    fn step(&self, node: u32, label: u32) -> Option<u32> {
        (node < LAST && label == node % 64 + 1).then(|| node + 1)
    }

    fn is_wanted(&self, node: u32) -> bool {
        node == LAST
    }
}

/// How many labels at the front of the word are 1, 2, .. 64, 1, 2, .. in turn.
fn in_turn(word: &[u16]) -> usize
    ensures within { result ≤ length word.now }
    ensures turns { (k : ℕ) → k < result → slice_index word.now k ≡ k % 64 + 1 }
    ensures ends { result < length word.now → slice_index word.now result ≢ result % 64 + 1 }
{
    word.iter()
        .enumerate()
        .position(|(k, label)| usize::from(*label) != k % 64 + 1)
        .unwrap_or(word.len())
}

/// What a search answered, in the form in which it is printed.
// No derived `Debug`: the printed text is settled, and names what is found.
#[derive(Drop)]
struct Answer(Result<Option<usize>, Shortage>);

impl fmt::Display for Answer {
    fn fmt<W: fmt::Write>(&self, f: &mut fmt::Formatter<W>) -> fmt::Result {
        match self.0 {
            Ok(None) => f.write_str("Ok(Absent)"),
            Ok(Some(length)) => write!(f, "Ok(Found {{ length: {length} }})"),
            Err(shortage) => write!(f, "Err({shortage:?})"),
        }
    }
}

fn main(rt: HostRuntime) -> io::Result<()> {
    let mut work: Vec<u32> = vec![in rt.alloc(); 0; 2 * NODES]?;
    let mut word: Vec<u16> = vec![in rt.alloc(); 0; NODES]?;
    let tree = Answer(least_word(&Tree, &mut work, &mut word));
    println!(rt;
        "tree: {tree}, beginning {} {} {} {}",
        word[0], word[1], word[2], word[3]
    )?;
    let line = Answer(least_word(&Line, &mut work, &mut word));
    println!(rt; "line: {line}, {} labels in turn", in_turn(&word))
}
