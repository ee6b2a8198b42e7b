// The signs of all cues laid end to end, with the mask of each sign.

ghost use Rattle.std.specs.Prelude.{◌≡◌, ℕ, ◌+◌, ◌<◌, ◌≤◌, [], ◌∷◌, ◌++◌, length, take, drop, IfOk, vec_len, vec_capacity, ◌==◌, slice_index};
ghost use Rattle.bits_theory.specs.Words.{bit, high_key, low_key, Marked};

use crate::word::BITS;
use std::alloc::{AllocError, Global};

// The mask of a sign has a bit for each place where the sign stands. It is kept in two tables, by the
// low and by the high byte of the sign: the mask is what both have.
// Two fields and no type of their own: what a table holds is said of the signs, which both share.
#[derive(Drop)]
pub(crate) struct Masks {
    signs: Vec<u16>,
    low: [u64; 256],
    high: [u64; 256],
    ghost room: { 64 ≤ vec_capacity signs },
    ghost short: { vec_len signs ≤ 64 },
    ghost bylow: { Marked low_key signs.items low },
    ghost byhigh: { Marked high_key signs.items high },
}

impl Masks {
    // No sign yet. It gets all the memory that 64 signs need.
    pub(crate) fn new(heap: Global) -> Result<Masks, AllocError>
        ensures { IfOk result (λ m. m.signs.items ≡ []) }
    {
        let signs = Vec::with_capacity(heap, BITS)?;
        Ok(Masks {
            signs,
            low: [0; 256],
            high: [0; 256],
        })
    }

    // The signs are gone.
    pub(crate) fn clear(&mut self)
        ensures { self.new.signs.items ≡ [] }
    {
        self.signs.clear();
        self.low.fill(0);
        self.high.fill(0);
    }

    // One sign behind the others.
    fn push(&mut self, sign: u16)
        requires { vec_len self.old.signs < 64 }
        ensures { self.new.signs.items ≡ self.old.signs.items ++ sign ∷ [] }
    {
        let place = 1u64 << self.signs.len();
        self.low[usize::from(sign % 256)] |= place;
        self.high[usize::from(sign / 256)] |= place;
        self.signs.push_reserved(sign);
    }

    // The signs of a cue behind the others.
    pub(crate) fn extend(&mut self, cue: &[u16])
        requires { length self.old.signs.items + length cue.now ≤ 64 }
        ensures { self.new.signs.items ≡ self.old.signs.items ++ cue.now }
    {
        for sign in cue {
            self.push(*sign);
        }
    }

    // How many signs there are.
    pub(crate) fn len(&self) -> usize
        ensures { result ≡ length self.now.signs.items }
    {
        self.signs.len()
    }

    // So many signs from a place on.
    pub(crate) fn part(&self, place: usize, len: usize) -> &[u16]
        requires { place + len ≤ length self.now.signs.items }
        ensures { result.now ≡ take len (drop place self.now.signs.items) }
    {
        &self.signs[place..place + len]
    }

    // The mask of a sign.
    pub(crate) fn mask(&self, sign: u16) -> u64
        ensures { (p : ℕ) → p < length self.now.signs.items → bit result p ≡ (slice_index self.now.signs.items p == sign) }
    {
        self.low[usize::from(sign % 256)] & self.high[usize::from(sign / 256)]
    }
}
