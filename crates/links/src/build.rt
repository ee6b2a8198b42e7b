// Building the table: level by level, first all beginnings of one sign, then of two, and so on.

ghost use Rattle.std.specs.Prelude.{◌≡◌, ◌+◌, ◌<◌, ◌≤◌, [], ◌∷◌, ◌++◌, length, take, vec_len, slice_index, slice_index_or, slice_set};
ghost use Rattle.links_theory.specs.Entries.{linked, new_node, node_at, path, slot_of};
ghost use Rattle.links.specs.Tables.{Building, cues_in, GrowingIn, Kept};

use crate::table::{Table, slot};
use book::limits::CUE_EVENTS;
use links_theory::Node;

impl Table {
    // Sets the link of one entry.
    fn set_link(&mut self, at: u16, to: u16)
        requires { at < vec_len self.old.nodes }
        ensures nodes { self.new.nodes.items ≡ slice_set self.old.nodes.items at (linked (node_at self.old.nodes.items at) to) }
        ensures heads { self.new.heads.value ≡ self.old.heads.value }
        ensures places { self.new.places ≡ self.old.places }
        ensures kept { Kept self.old self.new }
    {
        self.nodes[usize::from(at)].link = to;
    }

    // Adds an entry, at the head of its chain and with no link yet.
    fn add(&mut self, parent: u16, sign: u16, cue: u16, len: u16) -> u16
        requires { vec_len self.old.nodes ≤ 1024 }
        ensures value { result ≡ length self.old.nodes.items }
        ensures nodes { self.new.nodes.items ≡ self.old.nodes.items ++ new_node parent sign (slice_index self.old.heads.value (slot_of parent sign)) 0 cue len ∷ [] }
        ensures heads { self.new.heads.value ≡ slice_set self.old.heads.value (slot_of parent sign) (length self.old.nodes.items) }
        ensures places { self.new.places ≡ self.old.places }
        ensures kept { Kept self.old self.new }
    {
        let slot = slot(parent, sign);
        let at = self.nodes.len() as u16;
        let next = self.heads[slot];
        self.nodes.push_reserved(Node {
            parent,
            sign,
            next,
            link: 0,
            cue,
            len,
            whole: None,
        });
        self.heads[slot] = at;
        at
    }

    // The entry of the first k + 1 signs of a cue, made where there is none yet.
    fn enter(&mut self, number: usize, k: usize, sign: u16) -> u16
        requires building { Building self.old k number }
        requires number { number < length (cues_in self.old) }
        requires longer { k < length (slice_index_or (cues_in self.old) number []) }
        requires sign { sign ≡ slice_index (slice_index_or (cues_in self.old) number []) k }
        ensures growing { GrowingIn self.new k number }
        ensures few { length self.new.nodes.items ≤ length self.old.nodes.items + 1 }
        ensures within { result < length self.new.nodes.items }
        ensures path { path (cues_in self.new) self.new.nodes.items result ≡ take (k + 1) (slice_index_or (cues_in self.new) number []) }
        ensures places { self.new.places ≡ self.old.places }
        ensures kept { Kept self.old self.new }
    {
        let parent = self.places[number];
        if let Some(child) = self.child(parent, sign) {
            return child;
        }
        let link = self.link_from(parent, sign);
        let at = self.add(parent, sign, number as u16, k as u16 + 1);
        self.set_link(at, link);
        at
    }

    // One cue at one level: its place moves one sign on, unless the cue is at its end.
    fn grow(&mut self, number: usize, k: usize)
        requires building { Building self.old k number }
        requires number { number < vec_len self.old.cues }
        ensures building { Building self.new k (number + 1) }
        ensures kept { Kept self.old self.new }
    {
        let cue = self.cues[number];
        if k < cue.len {
            let sign = self.signs[cue.place + k];
            let at = self.enter(number, k, sign);
            self.places[number] = at;
        }
    }

    // One level: each cue with more than k signs. `grow` borrows the whole table, so the loop goes over
    // the numbers of the cues and not over the cues.
    fn level(&mut self, k: usize)
        requires { Building self.old k 0 }
        ensures building { Building self.new (k + 1) 0 }
        ensures kept { Kept self.old self.new }
    {
        for number in 0..self.cues.len() {
            self.grow(number, k);
        }
    }

    // All levels.
    pub(crate) fn build(&mut self)
        requires { Building self.old 0 0 }
        ensures building { Building self.new 32 0 }
        ensures kept { Kept self.old self.new }
    {
        for k in 0..CUE_EVENTS {
            self.level(k);
        }
    }
}
