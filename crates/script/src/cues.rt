// The cues of an input, one behind the other.

ghost use Rattle.std.specs.Prelude.{◌≡◌, [], ◌∷◌, ◌++◌, map, length, MatchResult, vec_len, sum};
ghost use Rattle.std.specs.List.{flat_map};

use std::alloc::{AllocError, Global};

// The events of all cues, and how many of them each cue has. Not a list for each cue: a draft takes the
// events of all cues as one list, and would have to copy them together.
#[derive(Drop)]
pub struct Cues<E> {
    events: Vec<E>,
    lens: Vec<usize>,
    ghost whole: { sum lens.items ≡ vec_len events },
}

impl<E> Cues<E> {
    ghost use Rattle.script.specs.Listed.{behind_last, cues_of};

    // No cue yet.
    pub fn new(heap: Global) -> Cues<E>
        ensures { cues_of result ≡ [] }
    {
        Cues {
            events: Vec::new(heap),
            lens: Vec::new(heap),
        }
    }

    // How many cues there are.
    pub fn count(&self) -> usize
        ensures { result ≡ length (cues_of self.now) }
    {
        self.lens.len()
    }

    // The first event of the next cue. For want of memory the cues stay as they were.
    pub fn begin(&mut self, event: E) -> Result<(), AllocError>
    where
        E: Drop,
        ensures { MatchResult result (λ _. cues_of self.new ≡ cues_of self.old ++ (event ∷ []) ∷ []) (λ _. cues_of self.new ≡ cues_of self.old) }
    {
        self.lens.reserve(1)?;
        self.events.push(event)?;
        self.lens.push_reserved(1);
        Ok(())
    }

    // One event more of the last cue; of the first, where there is none yet. For want of memory the cues
    // stay as they were.
    pub fn extend(&mut self, event: E) -> Result<(), AllocError>
    where
        E: Drop,
        ensures { MatchResult result (λ _. cues_of self.new ≡ behind_last (cues_of self.old) event) (λ _. cues_of self.new ≡ cues_of self.old) }
    {
        match self.lens.last_mut() {
            None => self.begin(event),
            Some(len) => {
                self.events.push(event)?;
                *len += 1;
                Ok(())
            }
        }
    }

    // The events of all cues in their order, and the length of each cue.
    pub fn into_parts(self) -> (Vec<E>, Vec<usize>)
        ensures events { result.0.items ≡ flat_map (λ c. c) (cues_of self) }
        ensures lens { result.1.items ≡ map length (cues_of self) }
    {
        let Cues { events, lens } = self;
        (events, lens)
    }
}
