// The table of entries.

ghost use Rattle.std.specs.Prelude.{◌≡◌, ◌<◌, ◌≤◌, vec_len, vec_capacity};
ghost use Rattle.links_theory.specs.Entries.{node_at, slot_of};

use book::Cue;
use links_theory::Node;

pub(crate) const SLOTS: usize = 1024;

// The cues, as parts of the signs, and an entry for each beginning of a cue. Entry 0 is the empty one.
// All memory is got by `reserve`, and no later call may fail for want of it: so an entry is named by its
// number in `nodes`, and found in a hash table of fixed size, where Box and maps would get memory later.
#[derive(Drop)]
pub(crate) struct Table {
    pub(crate) signs: Vec<u16>,
    pub(crate) cues: Vec<Cue>,
    pub(crate) nodes: Vec<Node>,
    // The newest entry of each chain of a hash table over (parent, sign). 0 ends a chain: entry 0 is the
    // root, which no chain has, so an Option would take twice the memory and bring no check. In a box, so that a
    // table is small where it is moved.
    pub(crate) heads: Box<[u16; SLOTS]>,
    // While the table is built: the entry of the first signs of each cue. It stands beside `cues`, since
    // those are copied from the book as they are.
    pub(crate) places: Vec<u16>,
    // Memory for any book.
    ghost signs_room: { 2048 ≤ vec_capacity signs },
    ghost cues_room: { 128 ≤ vec_capacity cues },
    ghost nodes_room: { 1025 ≤ vec_capacity nodes },
    ghost places_room: { 128 ≤ vec_capacity places },
}

// The chain of a child. A parent and a sign are two numbers here and below, as an entry and the definitions
// have them: a struct of the two would be taken apart wherever it is handed in.
pub(crate) fn slot(parent: u16, sign: u16) -> usize
    ensures value { result ≡ slot_of parent sign }
    ensures small { result < 1024 }
{
    (usize::from(parent) * 397 + usize::from(sign)) % SLOTS
}

impl Table {
    // An entry.
    pub(crate) fn node(&self, at: u16) -> Node
        requires { at < vec_len self.now.nodes }
        ensures { result ≡ node_at self.now.nodes.items at }
    {
        self.nodes[usize::from(at)]
    }
}
