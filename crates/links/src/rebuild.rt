// Filling the table anew for the cues of a book.

ghost use Rattle.std.specs.Prelude.{◌≡◌, true, vec_len};
ghost use Rattle.book.specs.Cues.{AllWithin, parts_of};
ghost use Rattle.matching.specs.Match.{distinct};
ghost use Rattle.links.specs.Tables.{Building, Bookable, cues_in, Kept, ReadyIn, SameRoom};

use crate::link_engine::LinkEngine;
use crate::lists::{fill, refill};
use crate::table::{SLOTS, Table};
use book::Cue;
use book::limits::{CUES, MATERIAL};
use engine::Engine;
use links_theory::Node;
use std::alloc::{AllocError, Global};

const ROOT: Node = Node {
    parent: 0,
    sign: 0,
    next: 0,
    link: 0,
    cue: 0,
    len: 0,
    whole: None,
};

// One entry for each sign of the cues at most, and the root.
const NODES: usize = LinkEngine::CAPACITY + 1;

impl Table {
    // An empty table with memory for any book.
    pub(crate) fn reserve(heap: Global) -> Result<Table, AllocError> {
        let signs = Vec::with_capacity(heap, MATERIAL)?;
        let cues = Vec::with_capacity(heap, CUES)?;
        let nodes = Vec::with_capacity(heap, NODES)?;
        let places = Vec::with_capacity(heap, CUES)?;
        let heads = Box::new(heap, [0; SLOTS])?;
        Ok(Table {
            signs,
            cues,
            nodes,
            heads,
            places,
        })
    }

    // The root alone, over these cues.
    fn begin(&mut self, signs: &[u16], cues: &[Cue])
        requires { Bookable signs.now cues.now }
        ensures building { Building self.new 0 0 }
        ensures signs { self.new.signs.items ≡ signs.now }
        ensures cues { self.new.cues.items ≡ cues.now }
        ensures room { SameRoom self.old self.new }
    {
        refill(&mut self.signs, signs);
        refill(&mut self.cues, cues);
        fill(&mut self.nodes, 1, ROOT);
        *self.heads = [0; SLOTS];
        fill(&mut self.places, cues.len(), 0);
    }

    // Marks the entry of each whole cue by its number.
    fn mark(&mut self)
        requires building { Building self.old 32 0 }
        requires apart { distinct (cues_in self.old) ≡ true }
        ensures ready { ReadyIn self.new 0 }
        ensures heads { self.new.heads.value ≡ self.old.heads.value }
        ensures places { self.new.places ≡ self.old.places }
        ensures kept { Kept self.old self.new }
    {
        for (number, at) in self.places.iter().enumerate() {
            self.nodes[usize::from(*at)].whole = Some(number as u16);
        }
    }

    // The table of these cues.
    pub(crate) fn rebuild(&mut self, signs: &[u16], cues: &[Cue])
        requires { Bookable signs.now cues.now }
        ensures ready { ReadyIn self.new 0 }
        ensures cues { cues_in self.new ≡ parts_of signs.now cues.now }
        ensures within { AllWithin (vec_len self.new.signs) self.new.cues.items }
        ensures room { SameRoom self.old self.new }
    {
        self.begin(signs, cues);
        self.build();
        self.mark();
    }
}
