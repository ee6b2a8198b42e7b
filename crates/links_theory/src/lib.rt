// The table of beginnings (textbook: the trie of the patterns with its failure links), one entry for
// each beginning. This crate has the entry as a struct, and the theory of tables of entries.

#![tactic(auto)]

// An entry (textbook: a trie node). Its beginning is the first `len` signs of cue number `cue`, which
// is the lowest cue that begins so.
#[derive(Clone, Copy, PartialEq, Eq, Debug)]
pub struct Node {
    // The entry whose beginning is one sign shorter, and that last sign.
    pub parent: u16,
    pub sign: u16,
    // The next older entry in the same chain of the hash table. 0 ends the chain: entry 0 is the root,
    // which no chain has, so an Option would take twice the memory and bring no check.
    pub next: u16,
    // The entry of the longest shorter beginning that ends this one (textbook: the failure link).
    pub link: u16,
    pub cue: u16,
    pub len: u16,
    // The cue that the beginning is as a whole, if it is one.
    pub whole: Option<u16>,
}
