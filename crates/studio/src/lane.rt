// A lane is offered stretches of events by their ends, in rising order, and marks those that share
// no event with an earlier mark.

ghost use Rattle.std.specs.Prelude.{◌≡◌, ◌^◌, ◌≤◌, List, [], ◌∷◌, ◌++◌, MatchResult};

use events::Refusal;

// `edge` is the first place behind every mark, `marks` how many there are, and `last` the end of the
// last offer that was granted. Each mark has an event, so the marks are at most the places before
// the edge. A model would hold the same three numbers that clauses read by `lane_held`.
#[derive(Clone, Copy, Debug, PartialEq, Eq)]
pub struct Lane {
    edge: u64,
    marks: u64,
    last: u32,
    ghost few: { marks ≤ edge },
    ghost within: { edge ≤ 2 ^ 32 },
}

impl Lane {
    ghost use Rattle.studio.specs.Lane.{lane_held, new_lane, offer_answer, offered};
    ghost use Rattle.studio.specs.Marks.{MarksApart, Offer, offer_of, Reached};

    // A lane with no mark, before any offer.
    pub fn new() -> Lane
        ensures held { lane_held result ≡ new_lane }
        ensures reached { Reached [] (lane_held result) }
    {
        Lane {
            edge: 0,
            marks: 0,
            last: 0,
        }
    }

    // Offers the `len` events that end with the one at place `end`. It is marked where none of them
    // is in an earlier mark; the answer says whether it was.
    pub fn offer(&mut self, end: u32, len: u32) -> Result<bool, Refusal>
        ensures value { result ≡ offer_answer (lane_held self.old) end len }
        ensures after { lane_held self.new ≡ offered (lane_held self.old) end len }
        ensures refused { MatchResult result (λ _. (lane_held self.new).last ≡ end) (λ _. self.new ≡ self.old) }
        ensures apart { (offers : List Offer) → Reached offers (lane_held self.old) → MarksApart (offers ++ offer_of end len ∷ []) (lane_held self.new) }
    {
        let Lane { edge, marks, last } = *self;
        if end < last {
            return Err(Refusal::EndBelowLast);
        }
        let behind = u64::from(end) + 1;
        let events = u64::from(len);
        if events == 0 || events > behind {
            return Err(Refusal::BadLength);
        }
        let marked = behind - events >= edge;
        *self = Lane {
            edge: if marked { behind } else { edge },
            marks: marks + u64::from(marked),
            last: end,
        };
        Ok(marked)
    }

    // The first place behind every mark.
    pub fn edge(&self) -> u64
        ensures { result ≡ (lane_held self.now).edge }
    {
        self.edge
    }

    // How many marks there are.
    pub fn marks(&self) -> u64
        ensures { result ≡ (lane_held self.now).marks }
    {
        self.marks
    }

    // The end of the last granted offer, 0 before any.
    pub fn last(&self) -> u32
        ensures { result ≡ (lane_held self.now).last }
    {
        self.last
    }
}
