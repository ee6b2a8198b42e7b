// Reading a word of bits.

ghost use Rattle.std.specs.Prelude.{◌≡◌, ◌+◌, ◌<◌, ◌≤◌};
ghost use Rattle.bits_theory.specs.Laid.{top};
ghost use Rattle.bits_theory.specs.Words.{bit};

// How many bits a word has.
pub(crate) const BITS: usize = 64;

// Whether the bit at a place is set.
pub(crate) fn is_set(word: u64, place: usize) -> bool
    requires { place < 64 }
    ensures { result ≡ bit word place }
{
    (word >> place) & 1 == 1
}

// The length of a cue's longest front whose bit is set, for a cue of `len` places from `place` on.
pub(crate) fn front_len(word: u64, place: usize, len: usize) -> usize
    requires { place + len ≤ 64 }
    ensures { result ≡ top word place len }
{
    // A loop: the proof of what a search from the end of a range finds does not close.
    for k in (0..len).rev() {
        if is_set(word, place + k) {
            return k + 1;
        }
    }
    0
}
