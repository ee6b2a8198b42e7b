// How cues are laid into the engine, followed and found.

ghost use Rattle.std.specs.Prelude.{◌≡◌, ◌+◌, ◌≤◌, true, [], ◌∷◌, ◌++◌, length, IfOk, MatchResult, Some, None, ℕ, ◌<◌, count_by, IfSome};
ghost use Rattle.std.specs.List.{All};
ghost use Rattle.std.specs.Option.{IsSomeAnd};
ghost use Rattle.engine.specs.Statements.{named, resume_refusal};
ghost use Rattle.matching.specs.Match.{distinct};
ghost use Rattle.bits_theory.specs.Below.{Next};
ghost use Rattle.bits_theory.specs.Laid.{Exact, reach, span_at, Stepped};
ghost use Rattle.bits.specs.Views.{cost_of, cues_of, live_of, signs_of, whole_set};

use crate::masks::Masks;
use crate::shift_and::BitEngine;
use crate::word::{BITS, is_set};
use book::Cue;
use events::Refusal;
use std::alloc::{AllocError, Global};

impl BitEngine {
    // An engine with no cue. It gets all the memory that 64 signs need.
    pub fn new(heap: Global) -> Result<BitEngine, AllocError>
        ensures { IfOk result (λ e. (cues_of e ≡ []) × (live_of e ≡ []) × (cost_of e ≡ 0)) }
    {
        let masks = Masks::new(heap)?;
        let spans = Vec::with_capacity(heap, BITS)?;
        Ok(BitEngine {
            masks,
            spans,
            firsts: 0,
            lasts: 0,
            state: 0,
        })
    }

    // All cues are gone.
    pub(super) fn clear(&mut self)
        ensures cues { self.new.spans.items ≡ [] }
        ensures signs { signs_of self.new ≡ [] }
        ensures state { self.new.state ≡ 0 }
    {
        self.forget();
        self.masks.clear();
        self.spans.clear();
        self.firsts = 0;
        self.lasts = 0;
    }

    // One cue behind the others, while nothing is live.
    pub(super) fn lay(&mut self, cue: &[u16])
        requires some { 1 ≤ length cue.now }
        requires room { length (signs_of self.old) + length cue.now ≤ 64 }
        requires apart { distinct (cues_of self.old ++ cue.now ∷ []) ≡ true }
        requires state { self.old.state ≡ 0 }
        ensures cues { cues_of self.new ≡ cues_of self.old ++ cue.now ∷ [] }
        ensures signs { length (signs_of self.new) ≡ length (signs_of self.old) + length cue.now }
        ensures state { self.new.state ≡ 0 }
    {
        let place = self.masks.len();
        let len = cue.len();
        self.masks.extend(cue);
        self.spans.push_reserved(Cue { place, len });
        self.firsts |= 1 << place;
        self.lasts |= 1 << (place + len - 1);
    }

    // Nothing is live.
    pub(super) fn forget(&mut self)
        ensures masks { self.new.masks ≡ self.old.masks }
        ensures spans { self.new.spans ≡ self.old.spans }
        ensures state { self.new.state ≡ 0 }
        ensures live { live_of self.new ≡ [] }
    {
        self.state = 0;
    }

    // Shift-And: each front whose bit is set grows by a place, a front of one sign begins at each
    // cue, and the mask keeps those whose last place has the sign.
    pub(super) fn next(&self, state: u64, sign: u16) -> u64
        requires { Exact state (signs_of self.now) self.now.spans.items (reach state (signs_of self.now) self.now.spans.items) }
        ensures { Stepped state result sign (signs_of self.now) self.now.spans.items }
    {
        ((state << 1) | self.firsts) & self.masks.mask(sign)
    }

    // The longest cue below a length that ends the live beginning: its number and length.
    pub(super) fn longest_below(&self, below: usize) -> Option<(u16, u16)>
        requires { 1 ≤ below }
        ensures { Next (cues_of self.now) (live_of self.now) below result }
    {
        let (number, c) = longest_set(self.state, &self.spans, below)?;
        Some((number as u16, c.len as u16))
    }

    // The beginning that a standing names, or why there is none.
    pub(super) fn named(&self, standing: (u16, u16)) -> Result<&[u16], Refusal>
        ensures { MatchResult result (λ b. (resume_refusal (cues_of self.now) standing ≡ None) × (b.now ≡ named (cues_of self.now) standing)) (λ r. resume_refusal (cues_of self.now) standing ≡ Some r) }
    {
        let number = usize::from(standing.0);
        let len = usize::from(standing.1);
        if standing == (0, 0) {
            return Ok(&[]);
        }
        let c = self.spans.get(number).ok_or(Refusal::NoSuchCue)?;
        if len > c.len {
            return Err(Refusal::BehindCue);
        }
        Ok(self.masks.part(c.place, len))
    }
}

// The longest of the cues below a length whose last bit is set, with its number.
fn longest_set(state: u64, spans: &[Cue], below: usize) -> Option<(usize, &Cue)>
    requires { All (λ c. (1 ≤ c.len) × (c.place + c.len ≤ 64)) spans.now }
    ensures number { IfSome result (λ r. r.0 < length spans.now) }
    ensures cue { IfSome result (λ r. r.1.now ≡ span_at spans.now r.0) }
    ensures below { IfSome result (λ r. r.1.now.len < below) }
    ensures set { IfSome result (λ r. whole_set state r.1.now ≡ true) }
    ensures most { (c : ℕ) → c < length spans.now → (span_at spans.now c).len < below → whole_set state (span_at spans.now c) ≡ true → IsSomeAnd result (λ r. (span_at spans.now c).len ≤ r.1.now.len) }
{
    spans
        .iter()
        .enumerate()
        .filter(|(_, c)| c.len < below && is_set(state, c.place + c.len - 1))
        .max_by_key(|(_, c)| c.len)
}

// How many cues have their last bit set.
pub(super) fn count_set(state: u64, spans: &[Cue]) -> usize
    requires { All (λ c. (1 ≤ c.len) × (c.place + c.len ≤ 64)) spans.now }
    ensures { result ≡ count_by (whole_set state) spans.now }
{
    spans
        .iter()
        .filter(|c| is_set(state, c.place + c.len - 1))
        .count()
}
