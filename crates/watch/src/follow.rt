// Following a list of events.

ghost use Rattle.std.specs.Prelude.{◌≡◌, ◌+◌, ◌<◌, ◌≤◌, [], ◌∷◌, ◌++◌, length};
ghost use Rattle.book.specs.Held.{book_held, lookup, lookups};
ghost use Rattle.matching.specs.Calls.{follows};
ghost use Rattle.matching.specs.Follow.{longest_text};
ghost use Rattle.matching.specs.Match.{live as live_of};
ghost use Rattle.watch.specs.After.{Always, Leads};
ghost use Rattle.watch.specs.Following.{FollowAnswer, LoadedEvents, obstacle, WroteFirst};

use crate::following::{Ending, Followed};
use crate::watch::{TEXT, Watch};
use book::{Book, Entry};
use engine::Engine;
use events::Event;

const FREE: usize = 32;

// Writes the sightings of an engine as entries of one place to the front of the free entries, as many
// as fit; how many it wrote.
fn write_sightings<L: Engine>(engine: &L, place: u32, free: &mut [Entry]) -> usize
    ensures bound { result ≤ length free.old }
    ensures wrote { WroteFirst (L.Engine.cues engine.now) (L.Engine.live engine.now) place free.old free.new result }
{
    // By index: while `iter_mut().enumerate()` is under way, an invariant cannot speak of the list that is
    // written, and the proof does not close.
    let sighted = engine.sighted();
    for i in 0..sighted {
        if i >= free.len() {
            return i;
        }
        if let Some((cue, len)) = engine.sighting(i + 1) {
            free[i] = Entry { place, cue, len };
        }
    }
    sighted
}

impl<L: Engine> Watch<L> {
    // Takes one event and writes its sightings to the front of the free entries; how many it wrote.
    fn follow_one<E: Event>(&mut self, book: &Book<E>, event: &E, free: &mut [Entry]) -> usize
        requires { self.old.len < longest_text }
        ensures cues { L.Engine.cues self.new.engine ≡ L.Engine.cues self.old.engine }
        ensures live { L.Engine.live self.new.engine ≡ live_of (L.Engine.cues self.old.engine) (L.Engine.live self.old.engine ++ lookup E.Event.same (book_held book.now) event.now ∷ []) }
        ensures cost { L.Engine.cost self.new.engine + length (L.Engine.live self.new.engine) ≤ L.Engine.cost self.old.engine + length (L.Engine.live self.old.engine) + 2 }
        ensures len { self.new.len ≡ self.old.len + 1 }
        ensures bound { result ≤ length free.old }
        ensures wrote { WroteFirst (L.Engine.cues self.old.engine) (L.Engine.live self.old.engine ++ lookup E.Event.same (book_held book.now) event.now ∷ []) self.old.len free.old free.new result }
    {
        let place = self.len;
        self.engine.step(book.sign(event));
        self.len += 1;
        write_sightings(&self.engine, place, free)
    }

    // Why no further event is taken, if none is: the text is full or fewer than 32 entries are free.
    fn obstacle(&self, free: usize) -> Option<Ending>
        ensures { result ≡ obstacle self.now.len free }
    {
        if self.len >= TEXT {
            Some(Ending::LongText)
        } else if free < FREE {
            Some(Ending::FewEntries)
        } else {
            None
        }
    }

    // Takes the events in their order and writes their sightings as entries. Before each event it ends
    // where the text is full or fewer than 32 entries are free.
    pub fn follow<E: Event>(
        &mut self,
        book: &Book<E>,
        events: &[E],
        entries: &mut [Entry],
    ) -> Followed
        ensures answer { Always L.Engine self.old (λ a. FollowAnswer a (lookups E.Event.same (book_held book.now) events.now) entries.old entries.new result) }
        ensures leads { Leads L.Engine self.old (follows (lookups E.Event.same (book_held book.now) events.now) (length entries.old)) self.new }
        ensures events { Always L.Engine self.old (LoadedEvents E.Event.same (book_held book.now) events.now (length entries.old)) }
    {
        // A sum beside the loop: the loop may end with it before the events do.
        let mut written = 0;
        for (taken, event) in events.iter().enumerate() {
            if let Some(ending) = self.obstacle(entries.len() - written) {
                return Followed {
                    taken,
                    written,
                    ending,
                };
            }
            written += self.follow_one(book, event, &mut entries[written..]);
        }
        Followed {
            taken: events.len(),
            written,
            ending: Ending::Done,
        }
    }
}
