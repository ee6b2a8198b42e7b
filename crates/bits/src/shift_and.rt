// The data of the engine.

ghost use Rattle.std.specs.Prelude.{◌≡◌, ◌≤◌, true, length, vec_len, vec_capacity};
ghost use Rattle.book.specs.Cues.{parts_of};
ghost use Rattle.matching.specs.Match.{distinct};
ghost use Rattle.bits_theory.specs.Laid.{Clear, Exact, reach, Spanned, Starts, Stops};

use crate::masks::Masks;
use book::Cue;

mod calls;
mod cues;

// All cues lie end to end, each a span of places, and each place has a bit: the bit at place k of a
// cue stands for its first k + 1 signs. In the state it is set exactly when they end the live
// beginning, and the longest of them whose bit is set is the live beginning itself.
#[derive(Drop)]
pub struct BitEngine {
    masks: Masks,
    spans: Vec<Cue>,
    firsts: u64,
    lasts: u64,
    state: u64,
    ghost room: { 64 ≤ vec_capacity spans },
    ghost few: { vec_len spans ≤ length masks.signs.items },
    ghost spanned: { Spanned (length masks.signs.items) spans.items },
    ghost starts: { Starts firsts spans.items },
    ghost free: { Clear firsts (length masks.signs.items) },
    ghost stops: { Stops lasts spans.items },
    ghost apart: { distinct (parts_of masks.signs.items spans.items) ≡ true },
    ghost exact: { Exact state masks.signs.items spans.items (reach state masks.signs.items spans.items) },
}
