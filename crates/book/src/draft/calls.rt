// The calls on a draft and on a book.

ghost use Rattle.std.specs.Prelude.{◌≡◌, [], length, IfOk, MatchResult, slice_index_or, vec_len};
ghost use Rattle.matching.specs.Calls.{total as sign_total};
ghost use Rattle.matching.specs.Match.{listed};
ghost use Rattle.book.specs.Bridge.{CuesEnd, SignTells};
ghost use Rattle.book.specs.Cues.{answer, cue_at, part_of, total, Within};
ghost use Rattle.book.specs.Held.{add_refused, add_refused_by_signs, begun, book_held, cue_signs, draft_held, lookup, Signed, with_cue};
ghost use Rattle.book.specs.Signs.{sign_of};

use crate::cue::Cue;
use crate::draft::{Book, Draft};
use crate::limits::{BOOK_EVENTS, CUE_EVENTS, CUES};
use crate::material::Material;
use events::{Event, Refusal};
use std::alloc::{AllocError, Global};

impl<E: Event> Draft<E> {
    // A draft with no cue; its material is the first 2,048 of the events. It gets all the memory
    // that adding and sealing need.
    pub fn begin(heap: Global, events: Vec<E>) -> Result<Draft<E>, AllocError>
    where
        E: Drop,
        ensures { IfOk result (λ d. draft_held d ≡ begun E.Event.same events.items) }
    {
        let material = Material::new(heap, events)?;
        let cues = Vec::with_capacity(heap, CUES)?;
        Ok(Draft {
            book: Book { material, cues },
        })
    }

    // The next cue: `len` events of the material from `place` on. It answers the cue's number.
    pub fn add(&mut self, place: usize, len: usize) -> Result<usize, Refusal>
        ensures value { result ≡ answer (add_refused_by_signs (draft_held self.old) place len) (length (draft_held self.old).cues) }
        ensures same { Signed E.Event.same (draft_held self.old) → result ≡ answer (add_refused E.Event.same (draft_held self.old) place len) (length (draft_held self.old).cues) }
        ensures cues { MatchResult result (λ _. draft_held self.new ≡ with_cue (draft_held self.old) (cue_at place len)) (λ _. self.new ≡ self.old) }
    {
        self.check(place, len)?;
        let cues = &mut self.book.cues;
        let number = cues.len();
        cues.push_reserved(Cue { place, len });
        Ok(number)
    }

    // Whether this cue may be added, and why not.
    fn check(&self, place: usize, len: usize) -> Result<(), Refusal>
        ensures { result ≡ answer (add_refused_by_signs (draft_held self.now) place len) tt }
    {
        if len == 0 {
            return Err(Refusal::EmptyCue);
        }
        if len > CUE_EVENTS {
            return Err(Refusal::LongCue);
        }
        let events = self.book.material().len();
        if len > events || place > events - len {
            return Err(Refusal::BehindMaterial);
        }
        if self.book.cues.len() == CUES || self.book.total() + len > BOOK_EVENTS {
            return Err(Refusal::BookFull);
        }
        if self.book.has_same(Cue { place, len }) {
            return Err(Refusal::SameCue);
        }
        Ok(())
    }

    // The book of these cues. The draft is gone.
    pub fn seal(self) -> Book<E>
        ensures held { book_held result ≡ draft_held self }
        ensures ends { Signed E.Event.same (book_held result) → CuesEnd E.Event.same (book_held result) }
    {
        self.book
    }
}

impl<E: Event> Book<E> {
    // The book with no cue and no material.
    pub fn empty(heap: Global) -> Book<E>
        ensures { book_held result ≡ begun E.Event.same [] }
    {
        Book {
            material: Material::empty(heap),
            cues: Vec::new(heap),
        }
    }

    // The sign of an event: the lowest place in the material with a same event, else 2,048. Only the
    // first of the events that are the same is compared.
    pub fn sign(&self, event: &E) -> u16
        ensures value { result ≡ lookup E.Event.same (book_held self.now) event.now }
        ensures lowest { Signed E.Event.same (book_held self.now) → result ≡ sign_of E.Event.same (book_held self.now).material event.now }
        ensures tells { SignTells E.Event.same (book_held self.now).material event.now }
    {
        self.material.sign_of(event)
    }

    // The material.
    pub fn material(&self) -> &[E]
        ensures { result.now ≡ (book_held self.now).material }
    {
        self.material.events()
    }

    // The signs of the material's events, in their order.
    pub fn signs(&self) -> &[u16]
        ensures { result.now ≡ (book_held self.now).signs }
    {
        self.material.signs()
    }

    // The cues by number.
    pub fn cues(&self) -> &[Cue]
        ensures { result.now ≡ (book_held self.now).cues }
    {
        self.cues.as_slice()
    }

    // The signs of a cue; none where there is no such cue.
    pub fn cue_signs(&self, number: usize) -> &[u16]
        ensures { result.now ≡ slice_index_or (cue_signs (book_held self.now)) number [] }
    {
        match self.cues.get(number) {
            Some(c) => self.material.part(*c),
            None => &[],
        }
    }

    // The events of all cues together, and so their signs.
    pub fn total(&self) -> usize
        ensures events { result ≡ total (book_held self.now).cues }
        ensures signs { result ≡ sign_total (cue_signs (book_held self.now)) }
    {
        self.cues.iter().map(|c| c.len).sum()
    }

    // Whether some cue has the signs of the given one.
    fn has_same(&self, given: Cue) -> bool
        requires { Within (vec_len self.now.material.events) given }
        ensures { result ≡ listed (cue_signs (book_held self.now)) (part_of (book_held self.now).signs given) }
    {
        self.cues.iter().any(|c| self.material.is_same(*c, given))
    }
}
