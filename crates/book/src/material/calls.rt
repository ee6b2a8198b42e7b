// The calls on the material.

ghost use Rattle.std.specs.Prelude.{◌≡◌, ◌≤◌, ◌<◌, ◌%◌, ◌&&◌, [], length, take, zip, position, IfOk, IfSome, MatchOption, vec_len, ◌==◌};
ghost use Rattle.std.specs.List.{enumerate_from};
ghost use Rattle.matching.specs.Match.{same as equal};
ghost use Rattle.book.specs.Cues.{part_of, Within};
ghost use Rattle.book.specs.Held.{look_from};
ghost use Rattle.book.specs.Signs.{sign_of, signs_of};

use crate::cue::Cue;
use crate::limits::MATERIAL;
use crate::material::Material;
use events::Event;
use std::alloc::{AllocError, Global};

// The sign of an event that is the same as none of the material.
const NO_SIGN: u16 = MATERIAL as u16;

impl<E: Event> Material<E> {
    // The first 2,048 of the events, with their signs.
    pub(crate) fn new(heap: Global, mut events: Vec<E>) -> Result<Material<E>, AllocError>
    where
        E: Drop,
        ensures events { IfOk result (λ m. m.events.items ≡ take 2048 events.items) }
        ensures signs { IfOk result (λ m. m.signs.items ≡ signs_of E.Event.same (take 2048 events.items) (take 2048 events.items)) }
    {
        events.truncate(MATERIAL);
        let signs = signs_of(heap, events.as_slice())?;
        Ok(Material { events, signs })
    }

    // The material with no events.
    pub(crate) fn empty(heap: Global) -> Material<E>
        ensures events { result.events.items ≡ [] }
        ensures signs { result.signs.items ≡ [] }
    {
        Material {
            events: Vec::new(heap),
            signs: Vec::new(heap),
        }
    }

    // The events, in their order.
    pub(crate) fn events(&self) -> &[E]
        ensures { result.now ≡ self.now.events.items }
    {
        self.events.as_slice()
    }

    // Their signs, in the same order.
    pub(crate) fn signs(&self) -> &[u16]
        ensures { result.now ≡ self.now.signs.items }
    {
        self.signs.as_slice()
    }

    // The sign of an event, looked up at the places that are their own sign.
    pub(crate) fn sign_of(&self, event: &E) -> u16
        ensures { result ≡ look_from E.Event.same 0 self.now.events.items self.now.signs.items event.now }
    {
        sign_at(self.own_place_of(event))
    }

    // The signs, cut at the number of the events, which is theirs too: so a walk along both lists tests one end and
    // not two.
    fn cut_signs(&self) -> &[u16]
        ensures { result.now ≡ self.now.signs.items }
    {
        &self.signs[..self.events.len()]
    }

    // The lowest place that is its own sign and has a same event.
    fn own_place_of(&self, event: &E) -> Option<usize>
        ensures inside { IfSome result (λ i. i < vec_len self.now.events) }
        ensures place { result ≡ position (λ q. (q.1.1 == q.0) && E.Event.same q.1.0 event.now) (enumerate_from 0 (zip self.now.events.items self.now.signs.items)) }
    {
        self.events
            .iter()
            .zip(self.cut_signs())
            .enumerate()
            .position(|(i, (m, s))| is_at(*s, i) && m.same(event))
    }

    // The signs of a cue. `Within` is asked for here and below, and is no part of `Cue`: a place and a length are
    // within one material and not within another.
    pub(crate) fn part(&self, c: Cue) -> &[u16]
        requires { Within (vec_len self.now.events) c }
        ensures { result.now ≡ part_of self.now.signs.items c }
    {
        &self.signs[c.place..c.place + c.len]
    }

    // Whether two cues have the same signs.
    pub(crate) fn is_same(&self, c: Cue, given: Cue) -> bool
        requires first { Within (vec_len self.now.events) c }
        requires second { Within (vec_len self.now.events) given }
        ensures { result ≡ equal (part_of self.now.signs.items c) (part_of self.now.signs.items given) }
    {
        self.part(c) == self.part(given)
    }
}

// Whether a sign is this place. There are few places, so 16 bits tell, and the sign is compared where it stands.
fn is_at(sign: u16, place: usize) -> bool
    ensures { result ≡ (sign == place % 65536) }
{
    sign == (place % 65_536) as u16
}

// The sign of an event that has its first place here, or none.
fn sign_at(place: Option<usize>) -> u16
    requires { IfSome place (λ i. i < 2048) }
    ensures { MatchOption place (result ≡ 2048) (λ i. result ≡ i) }
{
    place.map_or(NO_SIGN, |i| i as u16)
}

// The sign of an event under the events of the material.
fn sign_in<E: Event>(events: &[E], event: &E) -> u16
    requires { length events.now ≤ 2048 }
    ensures { result ≡ sign_of E.Event.same events.now event.now }
{
    sign_at(place_of(events, event))
}

// The lowest place with a same event.
fn place_of<E: Event>(events: &[E], event: &E) -> Option<usize>
    ensures inside { IfSome result (λ i. i < length events.now) }
    ensures place { result ≡ position (λ m. E.Event.same m event.now) events.now }
{
    events.iter().position(|m| m.same(event))
}

// The signs of the events themselves.
fn signs_of<E: Event>(heap: Global, events: &[E]) -> Result<Vec<u16>, AllocError>
    requires { length events.now ≤ 2048 }
    ensures { IfOk result (λ v. v.items ≡ signs_of E.Event.same events.now events.now) }
{
    events.iter().map(|m| sign_in(events, m)).collect(heap)
}
