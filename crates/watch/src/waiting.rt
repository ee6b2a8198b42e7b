// How many further events must come at least before a cue of a book can end.

ghost use Rattle.std.specs.Prelude.{◌≡◌, min, map};
ghost use Rattle.std.specs.List.{reduce};
ghost use Rattle.book.specs.Held.{book_held, cue_signs};
ghost use Rattle.matching.specs.Calls.{stands};
ghost use Rattle.matching.specs.Match.{wait as wait_of};
ghost use Rattle.watch.specs.After.{Always, NoneEarlier};

use crate::watch::Watch;
use book::Book;
use engine::Engine;
use events::Event;

// The length of the book's shortest cue; none where it has no cue.
fn shortest_cue<E: Event>(book: &Book<E>) -> Option<usize>
    ensures { result ≡ reduce min (map (λ c. c.len) (book_held book.now).cues) }
{
    book.cues().iter().map(|c| c.len).min()
}

impl<L: Engine> Watch<L> {
    // None for a book with no cue; else its shortest cue's length less the length of the live beginning,
    // but at least 1. With the loaded book, no cue ends at an earlier further event.
    pub fn wait<E: Event>(&self, book: &Book<E>) -> Option<usize>
        ensures value { Always L.Engine self.now (λ a. result ≡ wait_of (cue_signs (book_held book.now)) (stands a).1) }
        ensures earlier { Always L.Engine self.now (λ a. a.cues ≡ cue_signs (book_held book.now) → NoneEarlier a result) }
    {
        let least = shortest_cue(book)?;
        let live = usize::from(self.standing().1);
        Some(least.saturating_sub(live).max(1))
    }
}
