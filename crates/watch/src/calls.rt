// The calls on a watch and the questions.

ghost use Rattle.std.specs.Prelude.{◌≡◌, ℕ, List, [], ◌∷◌, length, OnErr};
ghost use Rattle.book.specs.Cues.{answer};
ghost use Rattle.book.specs.Held.{book_held, cue_signs};
ghost use Rattle.engine.specs.Statements.{ith, resume_refusal};
ghost use Rattle.matching.specs.Calls.{Call, account, loads, restarts, resumes, seen, stands, takes};
ghost use Rattle.watch.specs.After.{After, Always, WorkBound, Leads, Listed, Tells, StandEqual};
ghost use Rattle.watch.specs.Refusals.{load_refused, take_refused};

use crate::endings::has_few_endings;
use crate::watch::{TEXT, Watch};
use book::Book;
use engine::Engine;
use events::{Event, Refusal};
use std::alloc::Global;

impl<L: Engine> Watch<L> {
    // A new watch: the empty book is loaded into the engine.
    pub fn new(heap: Global, mut engine: L) -> Watch<L>
        ensures { After L.Engine [] result }
    {
        let empty: Book<u8> = Book::empty(heap);
        engine.load(&empty).unwrap();
        Watch { engine, len: 0 }
    }

    // The cues of a book, with an empty text.
    pub fn load<E: Event>(&mut self, book: &Book<E>) -> Result<(), Refusal>
        ensures value { result ≡ answer (load_refused L.Engine.CAPACITY (cue_signs (book_held book.now))) tt }
        ensures leads { Leads L.Engine self.old (loads (cue_signs (book_held book.now))) self.new }
        ensures refused { OnErr result (self.new ≡ self.old) }
    {
        if book.total() > L::CAPACITY {
            return Err(Refusal::OverCapacity);
        }
        if !has_few_endings(book) {
            return Err(Refusal::ManyEndings);
        }
        self.engine.load(book)?;
        self.len = 0;
        Ok(())
    }

    // One sign more.
    pub fn take(&mut self, sign: u16) -> Result<(), Refusal>
        ensures value { result ≡ answer (take_refused self.old.len) tt }
        ensures leads { Leads L.Engine self.old (takes sign) self.new }
        ensures refused { OnErr result (self.new ≡ self.old) }
    {
        if self.len >= TEXT {
            return Err(Refusal::FullText);
        }
        self.engine.step(sign);
        self.len += 1;
        Ok(())
    }

    // The text is empty again.
    pub fn restart(&mut self)
        ensures { Leads L.Engine self.old restarts self.new }
    {
        self.engine.restart();
        self.len = 0;
    }

    // The text becomes the beginning that a standing names.
    pub fn resume(&mut self, standing: (u16, u16)) -> Result<(), Refusal>
        ensures value { Always L.Engine self.old (λ a. result ≡ answer (resume_refusal a.cues standing) tt) }
        ensures leads { Leads L.Engine self.old (resumes standing.0 standing.1) self.new }
        ensures refused { OnErr result (self.new ≡ self.old) }
    {
        self.engine.resume(standing)?;
        self.len = u32::from(standing.1);
        Ok(())
    }

    // How many cues end the text.
    pub fn sighted(&self) -> usize
        ensures { Always L.Engine self.now (λ a. result ≡ length (seen a)) }
    {
        self.engine.sighted()
    }

    // The i-th longest cue that ends the text, counted from 1: its number and length.
    pub fn sighting(&self, i: usize) -> Option<(u16, u16)>
        ensures value { Always L.Engine self.now (λ a. result ≡ ith i (seen a)) }
        ensures listed { Always L.Engine self.now Listed }
    {
        self.engine.sighting(i)
    }

    // The standing of the text. It tells the text from any other, of a watch above any engine that has
    // the same cues, exactly where what follows can.
    pub fn standing(&self) -> (u16, u16)
        ensures value { Always L.Engine self.now (λ a. result ≡ stands a) }
        ensures tells { Always L.Engine self.now (λ a. (room : ℕ) (calls : List Call) → Tells a (account room calls)) }
    {
        self.engine.standing()
    }

    // The engine, for questions of its own.
    pub fn engine(&self) -> &L
        ensures value { result.now ≡ self.now.engine }
        ensures work { Always L.Engine self.now (WorkBound (L.Engine.cost result.now)) }
    {
        &self.engine
    }

    // Whether two watches stand equal. Where both were loaded with one book, that is so exactly when no
    // log can tell them apart.
    pub fn stands_as<M: Engine>(&self, other: &Watch<M>) -> bool
        ensures { Always L.Engine self.now (λ a. Always M.Engine other.now (λ b. StandEqual result a b)) }
    {
        self.standing() == other.standing()
    }
}
