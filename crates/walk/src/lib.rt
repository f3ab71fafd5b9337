//! The least word that leads from the start of a labelled graph to a wanted node, by a breadth-first search over lent lists.
#![tactic(auto)]

ghost use Rattle.std.specs.Prelude.{◌≡◌, ◌+◌, ◌*◌, ◌^◌, ◌<◌, ◌≤◌, ◌++◌, length, drop, replicate, slice_index};
ghost use Rattle.walk.specs.Order.{Word};
ghost use Rattle.walk.specs.Graph.{LabelledGraph, Sound};
ghost use Rattle.walk.specs.Walk.{link_of, parent_of, label_of, Traced, Walked, Entered, FirstWanted};
ghost use Rattle.walk.specs.Answer.{Answer};
ghost use Rattle.walk.specs.Laws.{OneAnswer, OneOrder};

/// A finite graph whose edges carry labels 1 to 64, at most one edge of a label from each node, and of which some nodes are wanted.
/// A number that is not a node has no edge and is not wanted.
pub trait Graph {
    // what the graph is
    ghost meaning: { Self → LabelledGraph };

    // what each graph keeps to
    ghost sound: { (g : Self) → Sound (meaning g) };

    /// How many nodes there are: they are numbered from 0.
    fn nodes(&self) -> usize
        ensures { result ≡ (meaning self.now).nodes };

    /// The greatest label.
    fn labels(&self) -> u32
        ensures { result ≡ (meaning self.now).labels };

    /// The node at which every word begins.
    fn start(&self) -> u32
        ensures { result ≡ (meaning self.now).start };

    /// Where the edge of the label leads from the node, if it has one.
    fn step(&self, node: u32, label: u32) -> Option<u32>
        ensures { result ≡ (meaning self.now).goes node label };

    /// Whether a word that leads to the node is sought.
    fn is_wanted(&self, node: u32) -> bool
        ensures { result ≡ (meaning self.now).wanted node };
}

/// Which lent list is too short, and how many cells it needs.
#[derive(Clone, Copy, PartialEq, Eq, Debug)]
pub enum Shortage {
    /// The work list, which needs two cells for each node.
    Work { cells: usize },
    /// The word list, which needs one cell for each node.
    Word { cells: usize },
}

/// The link of a node: the queue's place of the node from which it was entered, and the label of the edge.
#[derive(Clone, Copy)]
struct Link(u32);

impl Link {
    /// The start's link: it has no parent, and no label is that large.
    const START: Link = Link(127);

    /// The link of a node that an edge of this label enters from the parent's place in the queue.
    fn new(parent: usize, label: u32) -> Link
        requires { (parent < 2 ^ 25) × (label < 128) }
        ensures { result.0 ≡ link_of parent label }
    {
        Link(parent as u32 * 128 + label)
    }

    /// The parent's place in the queue.
    fn parent(self) -> usize
        ensures { result ≡ parent_of self.0 }
    {
        (self.0 / 128) as usize
    }

    /// The label of the edge from the parent.
    fn label(self) -> u16
        ensures { result ≡ label_of self.0 }
    {
        (self.0 % 128) as u16
    }
}

/// A search of a graph, in the two halves of the lent work list.
#[derive(Drop)]
struct Search<'a, 'b, G> {
    graph: &'a G,
    /// The link of each node; 0 where the node is not entered yet.
    links: &'b mut [u32],
    /// The nodes that were entered, in their order, and room for the others.
    queue: &'b mut [u32],
    /// How many were entered.
    tail: usize,
}

impl<'a, 'b, G: Graph> Search<'a, 'b, G> {
    ghost use Rattle.walk.specs.Searches.{Begun, Searching, TracedIn, SameLists};

    /// The search that has entered the start.
    fn new(graph: &'a G, links: &'b mut [u32], queue: &'b mut [u32]) -> Search<'a, 'b, G>
        requires { (length links.old ≡ (G.Graph.meaning graph.now).nodes) × (length links.old ≤ length queue.old) }
        ensures walked { Searching G.Graph.meaning result 0 1 }
        ensures same { Begun graph.now links.entry queue.entry result }
    {
        links.fill(0);
        let mut search = Search {
            graph,
            links,
            queue,
            tail: 0,
        };
        search.enter(graph.start(), Link::START);
        search
    }

    /// Gives `node` its link and the queue's next place, unless it was entered before.
    fn enter(&mut self, node: u32, link: Link)
        requires { (node < length self.old.links.now) × ((slice_index self.old.links.now node ≡ 0 → self.old.tail < length self.old.queue.now)) }
        ensures entered { Entered self.old.links.now self.old.queue.now self.old.tail node link.0 self.new.links.now self.new.queue.now self.new.tail }
        ensures same { SameLists self.old self.new }
    {
        let cell = &mut self.links[node as usize];
        if *cell == 0 {
            *cell = link.0;
            self.queue[self.tail] = node;
            self.tail += 1;
        }
    }

    /// Follows the edge of this label, if there is one, from the node at the queue's place `head`.
    fn follow(&mut self, head: usize, label: u32)
        requires walked { Searching G.Graph.meaning self.old head label }
        requires waiting { head < self.old.tail }
        requires named { (1 ≤ label) × (label ≤ (G.Graph.meaning self.old.graph.now).labels) }
        ensures walked { Searching G.Graph.meaning self.new head (label + 1) }
        ensures ahead { self.old.tail ≤ self.new.tail }
        ensures at_head { slice_index self.old.queue.now head ≡ slice_index self.new.queue.now head }
        ensures same { SameLists self.old self.new }
    {
        if let Some(node) = self.graph.step(self.queue[head], label) {
            self.enter(node, Link::new(head, label));
        }
    }

    /// Follows each edge from the node at the queue's place `head`.
    fn expand(&mut self, head: usize)
        requires { Searching G.Graph.meaning self.old head 1 × (head < self.old.tail) }
        ensures walked { Searching G.Graph.meaning self.new head ((G.Graph.meaning self.new.graph.now).labels + 1) }
        ensures ahead { self.old.tail ≤ self.new.tail }
        ensures at_head { slice_index self.old.queue.now head ≡ slice_index self.new.queue.now head }
        ensures same { SameLists self.old self.new }
    {
        let last = self.graph.labels();
        // Labels are numbers from 1 on: no list is read at one.
        for label in 1..=last {
            self.follow(head, label);
        }
    }

    /// Whether the node at a place of the queue is wanted.
    fn is_wanted_at(&self, place: usize) -> bool
        requires { place < length self.now.queue.now }
        ensures { result ≡ (G.Graph.meaning self.now.graph.now).wanted (slice_index self.now.queue.now place) }
    {
        self.graph.is_wanted(self.queue[place])
    }

    /// The queue's place of the first wanted node that the search takes.
    fn first_wanted(&mut self) -> Option<usize>
        requires { Searching G.Graph.meaning self.old 0 1 }
        ensures first { FirstWanted (G.Graph.meaning self.old.graph.now) self.new.links.now self.new.queue.now result }
        ensures same { SameLists self.old self.new }
    {
        // The queue grows while its nodes are taken.
        let mut head = 0;
        while head < self.tail {
            if self.is_wanted_at(head) {
                return Some(head);
            }
            self.expand(head);
            head += 1;
        }
        None
    }

    /// The link of the node at a place of the queue.
    fn link(&self, place: usize) -> Link
        requires { (place < length self.now.queue.now) × (slice_index self.now.queue.now place < length self.now.links.now) }
        ensures { result.0 ≡ slice_index self.now.links.now (slice_index self.now.queue.now place) }
    {
        Link(self.links[self.queue[place] as usize])
    }

    /// How many links lead from the queue's place `at` back to the start.
    fn depth(&self, at: usize) -> usize
        requires { (w : Word) × TracedIn self.now at w }
        ensures { (w : Word) → TracedIn self.now at w → result ≡ length w }
    {
        // The place follows the links, and not the order of a list.
        let mut place = at;
        let mut count = 0;
        while place != 0 {
            place = self.link(place).parent();
            count += 1;
        }
        count
    }

    /// Writes the word that leads to the node at the queue's place `at`, of `len` labels, from its end.
    fn spell(&self, at: usize, len: usize, word: &mut [u16])
        requires traced { (w : Word) × TracedIn self.now at w }
        requires long { (w : Word) → TracedIn self.now at w → len ≡ length w }
        requires room { len ≤ length word.old }
        ensures { (w : Word) → TracedIn self.now at w → word.new ≡ w ++ drop len word.old }
    {
        // As in `depth`, the place follows the links.
        let mut place = at;
        let mut left = len;
        while place != 0 {
            let link = self.link(place);
            left -= 1;
            word[left] = link.label();
            place = link.parent();
        }
    }
}

/// Writes the least word that leads from the start to a wanted node to the front of `word`.
/// Its other cells stay as they are, and so do both lists where one is too short; the work list is looked at first.
/// Otherwise what the work list holds is free, and the answer is how many labels the least word has, if there is one.
pub fn least_word<G: Graph>(
    graph: &G,
    work: &mut [u32],
    word: &mut [u16],
) -> Result<Option<usize>, Shortage>
    ensures { Answer (G.Graph.meaning graph.now) work.old word.old work.new word.new result }
{
    let nodes = graph.nodes();
    if work.len() < 2 * nodes {
        return Err(Shortage::Work { cells: 2 * nodes });
    }
    if word.len() < nodes {
        return Err(Shortage::Word { cells: nodes });
    }
    let (links, queue) = work.split_at_mut(nodes);
    let mut search = Search::new(graph, links, queue);
    let Some(at) = search.first_wanted() else {
        return Ok(None);
    };
    let length = search.depth(at);
    search.spell(at, length, word);
    Ok(Some(length))
}

/// A theorem: for a graph and two lists there is one answer, and one word list that is given back with it.
pub fn one_answer()
    ensures { OneAnswer }
{}

/// A theorem: there is one list of the same nodes in the order of their least words.
pub fn one_order()
    ensures { OneOrder }
{}
