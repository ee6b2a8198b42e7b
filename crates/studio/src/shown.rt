// Showing the events behind an entry: from a piece of the log where they are all there, else from
// the book's material.

ghost use Rattle.std.specs.Prelude.{◌≡◌};
ghost use Rattle.std.specs.Option.{option_map};
ghost use Rattle.book.specs.Held.{book_held};
ghost use Rattle.studio.specs.Show.{cue_events, InPlace, OfWhole, SameEvents, showing, shown_of};

use book::{Book, Entry};
use events::Event;

// The events behind an entry, and where they were taken from.
#[derive(Drop)]
pub enum Shown<'a, E> {
    Log(&'a [E]),
    Material(&'a [E]),
}

// The events of a cue, where the book has it with this length.
fn cue_events<E: Event>(book: &Book<E>, number: usize, len: usize) -> Option<&[E]>
    ensures { option_map (λ x. x.now) result ≡ cue_events (book_held book.now) number len }
{
    let cue = book.cues().get(number).filter(|cue| cue.len == len)?;
    Some(&book.material()[cue.place..cue.place + len])
}

// The events behind an entry. `log` is a piece of the log and `first` the place of its first event.
// Nothing is shown where the book lacks the entry's cue or has it with another length.
pub fn show<'a, E: Event>(
    book: &'a Book<E>,
    log: &'a [E],
    first: u32,
    entry: Entry,
) -> Option<Shown<'a, E>>
    ensures value { shown_of result ≡ showing (book_held book.now) log.now first entry }
    ensures place { InPlace log.now first entry (shown_of result) }
    ensures whole { OfWhole log.now first entry (shown_of result) }
    ensures same { SameEvents (book_held book.now) entry (shown_of result) }
{
    let len = usize::from(entry.len);
    let events = cue_events(book, usize::from(entry.cue), len)?;
    let behind = entry.place as usize + 1;
    let start = first as usize;
    if start + len <= behind && behind - start <= log.len() {
        let from = behind - len - start;
        return Some(Shown::Log(&log[from..from + len]));
    }
    Some(Shown::Material(events))
}
