// What an input says.

ghost use Rattle.std.specs.Prelude.{◌≤◌, vec_len};

use crate::cues::Cues;
use events::Refusal;

// How the lines of the cues are counted.
#[derive(Clone, Copy, PartialEq, Eq, Debug)]
pub enum Layout {
    // a line for each event of a cue
    PerEvent,
    // a line for each cue
    PerCue,
}

// The cues; why the line behind them is refused, none where it is the parting line; the events of the
// text behind that, and why the line behind them is refused, none where the input ends there. A `stop` or
// an `end` is a part of what an input says and no failure of the call, so it is no `Result`.
#[derive(Drop)]
pub struct Script<E> {
    pub cues: Cues<E>,
    pub stop: Option<Refusal>,
    pub text: Vec<E>,
    pub end: Option<Refusal>,
    ghost short: { vec_len text ≤ 9999999 },
}
