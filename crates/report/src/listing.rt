// Listing the runs of a book's cues in a text.

ghost use Rattle.std.specs.Prelude.{◌≡◌, ◌≤◌, [], ◌++◌, length, IfOk, OnOk};
ghost use Rattle.std.specs.List.{flat_map};
ghost use Rattle.book.specs.Held.{book_held, cue_signs, lookups};
ghost use Rattle.links.specs.contracts.link_engine.calls.LinkEngineEngine.TheImpl.{ghosts};
ghost use Rattle.report.specs.Reached.{Reached, entry_text, Wrote};

use book::{Book, Entry};
use columns::entry_line;
use engine::Engine;
use events::Event;
use links::LinkEngine;
use std::alloc::{AllocError, Global};
use watch::Watch;

// How many entries one round of following has room for.
const ENTRIES: usize = 512;

// Writes a line for each entry.
fn write_entries(out: &mut Vec<u8>, entries: &[Entry]) -> Result<(), AllocError>
    ensures { OnOk result (out.new.items ≡ out.old.items ++ flat_map entry_text entries.now) }
{
    for entry in entries {
        let line = entry_line(
            u64::from(entry.place),
            u64::from(entry.cue),
            u64::from(entry.len),
        );
        out.extend_from_slice(&line)?;
    }
    Ok(())
}

// Follows the events in rounds, each with the same list of entries, and writes a line for each sighting;
// how many there are.
fn follow_all<L: Engine, E: Event>(
    out: &mut Vec<u8>,
    watch: &mut Watch<L>,
    book: &Book<E>,
    events: &[E],
    entries: &mut [Entry],
) -> Result<usize, AllocError>
    requires reached { Reached L.Engine watch.old (cue_signs (book_held book.now)) [] }
    requires short { length events.now ≤ 9999999 }
    requires room { 32 ≤ length entries.old }
    ensures { IfOk result (λ n. Wrote (cue_signs (book_held book.now)) (lookups E.Event.same (book_held book.now) events.now) out.old.items out.new.items n) }
{
    let mut sightings = 0;
    let mut rest = events;
    while !rest.is_empty() {
        let followed = watch.follow(book, rest, entries);
        write_entries(out, &entries[..followed.written])?;
        sightings += followed.written;
        rest = &rest[followed.taken..];
    }
    Ok(sightings)
}

// A watch above the link engine that has loaded the book. The engine has room for every book.
fn load_book<E: Event>(heap: Global, book: &Book<E>) -> Result<Watch<LinkEngine>, AllocError>
    ensures { IfOk result (λ w. Reached ghosts w (cue_signs (book_held book.now)) []) }
{
    let engine = LinkEngine::new(heap)?;
    let mut watch = Watch::new(heap, engine);
    watch.load(book).unwrap();
    Ok(watch)
}

// Writes a line for each run of the book's cues in the text; how many there are.
pub(crate) fn list_runs<E: Event>(
    heap: Global,
    out: &mut Vec<u8>,
    book: &Book<E>,
    text: &[E],
) -> Result<usize, AllocError>
    requires { length text.now ≤ 9999999 }
    ensures { IfOk result (λ n. Wrote (cue_signs (book_held book.now)) (lookups E.Event.same (book_held book.now) text.now) out.old.items out.new.items n) }
{
    let mut watch = load_book(heap, book)?;
    let mut entries = [Entry::default(); ENTRIES];
    follow_all(out, &mut watch, book, text, &mut entries)
}
