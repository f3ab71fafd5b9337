//! Small graphs, each with its least word worked out by hand.
#![tactic(auto)]

ghost use Rattle.walk_vectors.specs.Table.{table_graph, table_sound};

use walk::Graph;

/// The number of nodes of a table.
const NODES: u32 = 5;

/// A graph of five nodes and three labels, which starts at node 0.
#[derive(Clone, Copy)]
pub struct Table {
    /// A row for each node, with the node to which the edge of each label leads; an entry that is no node stands for no edge.
    pub edges: [[u32; 3]; 5],
    /// Which nodes are wanted.
    pub wanted: [bool; 5],
}

impl Graph for Table {
    ghost meaning = { table_graph };

    ghost sound = { table_sound };

    fn nodes(&self) -> usize {
        NODES as usize
    }

    fn labels(&self) -> u32 {
        3
    }

    fn start(&self) -> u32 {
        0
    }

    fn step(&self, node: u32, label: u32) -> Option<u32> {
        let row = self.edges.get(node as usize)?;
        let to = *row.get(label.checked_sub(1)? as usize)?;
        (to < NODES).then_some(to)
    }

    fn is_wanted(&self, node: u32) -> bool {
        self.wanted.get(node as usize) == Some(&true)
    }
}

#[cfg(test)]
mod tests {
    use super::*;
    use walk::{Shortage, least_word};

    // No edge.
    const NO: u32 = 9;

    // Node 1 is reached by 2, node 2 by 1; the words to nodes 3 and 4 are `1 3` and `2 1`.
    const DIAMOND: [[u32; 3]; 5] = [
        [2, 1, NO],
        [4, NO, NO],
        [NO, NO, 3],
        [NO, NO, NO],
        [NO, NO, NO],
    ];

    // A search for the wanted nodes, over lists of so many cells with 7 in each: its answer, and both lists after it.
    fn search<const WORK: usize, const WORD: usize>(
        edges: [[u32; 3]; 5],
        wanted: [bool; 5],
    ) -> (Result<Option<usize>, Shortage>, [u32; WORK], [u16; WORD]) {
        let mut work = [7; WORK];
        let mut word = [7; WORD];
        let answer = least_word(&Table { edges, wanted }, &mut work, &mut word);
        (answer, work, word)
    }

    #[test]
    fn wanted_start(rt: HostRuntime) {
        let (answer, _, word) = search::<10, 5>(DIAMOND, [true; 5]);
        assert_eq!(rt; answer, Ok(Some(0)));
        assert_eq!(rt; word, [7, 7, 7, 7, 7]);
    }

    // Both words have two labels, and 1 is less than 2 at the first difference.
    #[test]
    fn two_words_of_one_length(rt: HostRuntime) {
        let (answer, _, word) = search::<12, 6>(DIAMOND, [false, false, false, true, true]);
        assert_eq!(rt; answer, Ok(Some(2)));
        assert_eq!(rt; word, [1, 3, 7, 7, 7, 7]);
    }

    // `1 1` and `3` lead to node 2: the shorter word is the less, though its label is greater.
    #[test]
    fn shorter_word_first(rt: HostRuntime) {
        let edges = [
            [1, NO, 2],
            [2, NO, NO],
            [NO, NO, NO],
            [NO, NO, NO],
            [NO, NO, NO],
        ];
        let (answer, _, word) = search::<10, 5>(edges, [false, false, true, false, false]);
        assert_eq!(rt; answer, Ok(Some(1)));
        assert_eq!(rt; word, [3, 7, 7, 7, 7]);
    }

    // Nodes 0 and 1 lead to each other, and node 2 to itself: a word to node 3 is `1 2 3`, or that with turns round these cycles put in.
    #[test]
    fn behind_a_cycle(rt: HostRuntime) {
        let edges = [
            [1, NO, NO],
            [0, 2, NO],
            [2, NO, 3],
            [NO, NO, NO],
            [NO, NO, NO],
        ];
        let (answer, _, word) = search::<10, 5>(edges, [false, false, false, true, false]);
        assert_eq!(rt; answer, Ok(Some(3)));
        assert_eq!(rt; word, [1, 2, 3, 7, 7]);
    }

    // An edge leads from node 4 and none to it.
    #[test]
    fn none_wanted(rt: HostRuntime) {
        let edges = [
            [1, NO, NO],
            [0, 2, NO],
            [2, NO, 3],
            [NO, NO, NO],
            [0, NO, NO],
        ];
        let (answer, _, word) = search::<10, 5>(edges, [false, false, false, false, true]);
        assert_eq!(rt; answer, Ok(None));
        assert_eq!(rt; word, [7, 7, 7, 7, 7]);
    }

    // Two cells are needed for each of the five nodes.
    #[test]
    fn work_one_cell_short(rt: HostRuntime) {
        let (answer, work, word) = search::<9, 4>(DIAMOND, [true; 5]);
        assert_eq!(rt; answer, Err(Shortage::Work { cells: 10 }));
        assert_eq!(rt; work, [7, 7, 7, 7, 7, 7, 7, 7, 7]);
        assert_eq!(rt; word, [7, 7, 7, 7]);
    }

    // One cell is needed for each of the five nodes.
    #[test]
    fn word_one_cell_short(rt: HostRuntime) {
        let (answer, work, word) = search::<10, 4>(DIAMOND, [true; 5]);
        assert_eq!(rt; answer, Err(Shortage::Word { cells: 5 }));
        assert_eq!(rt; work, [7, 7, 7, 7, 7, 7, 7, 7, 7, 7]);
        assert_eq!(rt; word, [7, 7, 7, 7]);
    }
}
