// The calls of an engine.

ghost use Rattle.std.specs.Prelude.{◌≡◌};
ghost use Rattle.bits.specs.Views.{cost_of, cues_of, live_of};

use crate::shift_and::BitEngine;
use crate::shift_and::cues::count_set;
use crate::word::{BITS, front_len};
use book::Book;
use engine::Engine;
use events::{Event, Refusal};

impl Engine for BitEngine {
    const CAPACITY: usize = BITS;

    ghost CAPACITY = { 64 };

    ghost cues = { cues_of };

    ghost live = { live_of };

    ghost cost = { cost_of };

    fn most() -> usize
        ensures room { result ≡ 64 }
        ensures constant { result ≡ ⟦<BitEngine as Engine>⟧.CAPACITY }
    {
        Self::CAPACITY
    }

    fn load<E: Event>(&mut self, book: &Book<E>) -> Result<(), Refusal> {
        let room = Self::CAPACITY;
        if book.total() > room {
            return Err(Refusal::OverCapacity);
        }
        self.clear();
        // By number, since the book gives the signs of a cue by its number.
        for number in 0..book.cues().len() {
            self.lay(book.cue_signs(number));
        }
        Ok(())
    }

    fn step(&mut self, sign: u16) {
        self.state = self.next(self.state, sign);
    }

    fn restart(&mut self) {
        self.forget();
    }

    fn sighted(&self) -> usize {
        if self.state & self.lasts == 0 {
            return 0;
        }
        count_set(self.state, &self.spans)
    }

    fn sighting(&self, i: usize) -> Option<(u16, u16)> {
        if i == 0 {
            return None;
        }
        let mut below = Self::CAPACITY + 1;
        // Repeated, with no index.
        for _ in 1..i {
            below = usize::from(self.longest_below(below)?.1);
        }
        self.longest_below(below)
    }

    fn standing(&self) -> (u16, u16) {
        // A loop: (0, 0) is the answer where no front is longer, and of equal fronts the lowest cue's
        // counts, while `max_by_key` gives `None` and the last.
        let mut best = (0, 0);
        for (i, c) in self.spans.iter().enumerate() {
            let len = front_len(self.state, c.place, c.len);
            if best.1 < len {
                best = (i, len);
            }
        }
        (best.0 as u16, best.1 as u16)
    }

    fn resume(&mut self, standing: (u16, u16)) -> Result<(), Refusal> {
        let mut state = 0;
        for sign in self.named(standing)? {
            state = self.next(state, *sign);
        }
        self.state = state;
        Ok(())
    }
}
