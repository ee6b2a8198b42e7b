// The calls on a link engine.

ghost use Rattle.std.specs.Prelude.{◌≡◌, ◌+◌, ◌<◌, ◌≤◌, min, [], ◌∷◌, ◌++◌, length, take, IfOk, None, vec_len, slice_index_or};
ghost use Rattle.book.specs.Cues.{answer};
ghost use Rattle.matching.specs.Match.{live as live_of, tries};
ghost use Rattle.engine.specs.Statements.{named, resume_refusal};
ghost use Rattle.links_theory.specs.Entries.{path};
ghost use Rattle.links.specs.Engines.{engine_cues, engine_live};
ghost use Rattle.links.specs.Tables.{seen_at};

use crate::link_engine::LinkEngine;
use crate::queries::Sightings;
use crate::table::Table;
use book::Book;
use book::limits::BOOK_EVENTS;
use engine::Engine;
use events::{Event, Refusal};
use std::alloc::{AllocError, Global};

impl LinkEngine {
    // An engine with no cue. It gets all the memory that it ever needs.
    pub fn new(heap: Global) -> Result<LinkEngine, AllocError>
        ensures { IfOk result (λ e. (engine_cues e ≡ []) × (engine_live e ≡ []) × (e.trials ≡ 0)) }
    {
        let mut table = Table::reserve(heap)?;
        table.rebuild(&[], &[]);
        Ok(LinkEngine {
            table,
            at: 0,
            trials: 0,
        })
    }

    // Makes an entry the live one, and counts the trials anew.
    fn set_live(&mut self, at: u16)
        requires { at < vec_len self.old.table.nodes }
        ensures table { self.new.table ≡ self.old.table }
        ensures at { self.new.at ≡ at }
        ensures trials { self.new.trials ≡ 0 }
    {
        self.at = at;
        self.trials = 0;
    }

    // Whether a standing is granted, or why it is refused.
    fn check(&self, standing: (u16, u16)) -> Result<(), Refusal>
        ensures { result ≡ answer (resume_refusal (engine_cues self.now) standing) tt }
    {
        if standing == (0, 0) {
            return Ok(());
        }
        let number = usize::from(standing.0);
        let len = usize::from(standing.1);
        let cue = self.table.cues.get(number).ok_or(Refusal::NoSuchCue)?;
        if len > cue.len {
            return Err(Refusal::BehindCue);
        }
        Ok(())
    }

    // The entry of the first `len` signs of a cue, reached from the root sign by sign.
    fn descend(&self, number: usize, len: usize) -> u16
        requires number { number < length (engine_cues self.now) }
        requires len { len ≤ length (slice_index_or (engine_cues self.now) number []) }
        ensures within { result < vec_len self.now.table.nodes }
        ensures path { path (engine_cues self.now) self.now.table.nodes.items result ≡ take len (slice_index_or (engine_cues self.now) number []) }
    {
        let place = self.table.cues[number].place;
        let mut at = 0;
        for sign in &self.table.signs[place..place + len] {
            at = self.table.child(at, *sign).unwrap();
        }
        at
    }

    // The entry of the beginning that a standing names.
    fn entry(&self, standing: (u16, u16)) -> u16
        requires { resume_refusal (engine_cues self.now) standing ≡ None }
        ensures within { result < vec_len self.now.table.nodes }
        ensures path { path (engine_cues self.now) self.now.table.nodes.items result ≡ named (engine_cues self.now) standing }
    {
        if standing.1 == 0 {
            return 0;
        }
        self.descend(usize::from(standing.0), usize::from(standing.1))
    }

    // The sightings of an entry, the longest first.
    fn sightings(&self, from: u16) -> Sightings<'_>
        requires { from < vec_len self.now.table.nodes }
        ensures { seen_at result.table.now result.at ≡ seen_at self.now.table from }
    {
        Sightings {
            table: &self.table,
            at: from,
        }
    }
}

impl Engine for LinkEngine {
    const CAPACITY: usize = BOOK_EVENTS;

    ghost CAPACITY = { 1024 };

    ghost cues = { engine_cues };

    ghost live = { engine_live };

    ghost cost = { λ e. e.trials };

    fn most() -> usize
        ensures room { result ≡ 1024 }
        ensures constant { result ≡ ⟦<LinkEngine as Engine>⟧.CAPACITY }
    {
        Self::CAPACITY
    }

    fn load<E: Event>(&mut self, book: &Book<E>) -> Result<(), Refusal> {
        if book.total() > Self::CAPACITY {
            return Err(Refusal::OverCapacity);
        }
        self.table.rebuild(book.signs(), book.cues());
        self.at = 0;
        self.trials = 0;
        Ok(())
    }

    fn step(&mut self, sign: u16)
        ensures cues { engine_cues self.new ≡ engine_cues self.old }
        ensures live { engine_live self.new ≡ live_of (engine_cues self.old) (engine_live self.old ++ sign ∷ []) }
        ensures cost { self.new.trials + length (engine_live self.new) ≤ self.old.trials + length (engine_live self.old) + 2 }
        ensures trials { self.new.trials ≡ min 4294967295 (self.old.trials + tries (engine_cues self.old) (engine_live self.old) sign) }
    {
        let walk = self.table.walk(self.at, sign);
        self.at = walk.at;
        self.trials = self.trials.saturating_add(walk.trials);
    }

    fn restart(&mut self) {
        self.set_live(0);
    }

    fn sighted(&self) -> usize {
        self.sightings(self.at).count()
    }

    fn sighting(&self, i: usize) -> Option<(u16, u16)> {
        let before = i.checked_sub(1)?;
        self.sightings(self.at).nth(before)
    }

    fn standing(&self) -> (u16, u16) {
        let node = self.table.node(self.at);
        (node.cue, node.len)
    }

    fn resume(&mut self, standing: (u16, u16)) -> Result<(), Refusal> {
        self.check(standing)?;
        let at = self.entry(standing);
        self.set_live(at);
        Ok(())
    }
}
