// A watch and the book that it is asked with.

use crate::command::Call;
use crate::words::{low_16, low_20, two_words};
use book::{Book, Draft, Entry};
use engine::Engine;
use events::Refusal;
use std::alloc::{AllocError, Global};
use watch::Watch;

// Says the refusal's number behind what was refused.
pub(crate) fn say_refusal(
    out: &mut String,
    name: &str,
    refusal: Refusal,
) -> Result<(), AllocError> {
    writeln!(out, "{name} {}", refusal.number())
}

// Says that a command was granted, or the number of its refusal.
fn say_answer(out: &mut String, name: &str, answer: Result<(), Refusal>) -> Result<(), AllocError> {
    match answer {
        Ok(()) => writeln!(out, "{name} ok"),
        Err(refusal) => say_refusal(out, name, refusal),
    }
}

// Makes the book of the words, or says which add is refused.
fn make_book(words: &[u8], out: &mut String) -> Result<Option<Book<u8>>, AllocError> {
    let heap = *out.allocator();
    let mut letters = Vec::new(heap);
    for word in words.split(|b| *b == b' ') {
        letters.extend_from_slice(word)?;
    }
    let mut draft = Draft::begin(heap, letters)?;
    // The place is a sum beside the loop, since each add may end it.
    let mut place = 0usize;
    for word in words.split(|b| *b == b' ').filter(|w| !w.is_empty()) {
        if let Err(refusal) = draft.add(place, word.len()) {
            say_refusal(out, "add", refusal)?;
            return Ok(None);
        }
        place = place.wrapping_add(word.len());
    }
    Ok(Some(draft.seal()))
}

// The book is the one that was last made; the watch may have refused it.
#[derive(Drop)]
pub(crate) struct Desk<L> {
    watch: Watch<L>,
    book: Book<u8>,
}

impl<L: Engine> Desk<L> {
    // A new watch above the engine, and the empty book.
    pub(crate) fn new(heap: Global, engine: L) -> Desk<L> {
        Desk {
            watch: Watch::new(heap, engine),
            book: Book::empty(heap),
        }
    }

    // The engine below the watch.
    pub(crate) fn engine(&self) -> &L {
        self.watch.engine()
    }

    // One call or question, of these words, answered behind what stands in `out`: as with `fmt`, what is asked
    // and where it is written are two parameters.
    pub(crate) fn answer(
        &mut self,
        call: Call,
        words: &[u8],
        out: &mut String,
    ) -> Result<(), AllocError> {
        match call {
            Call::Load => self.load(words, out),
            Call::Take => say_answer(out, "take", self.watch.take(low_16(words))),
            Call::Follow => self.follow(words, out),
            Call::Resume => self.resume(words, out),
            Call::Questions => self.questions(out),
            Call::Restart => {
                self.watch.restart();
                writeln!(out, "restart")
            }
        }
    }

    fn load(&mut self, words: &[u8], out: &mut String) -> Result<(), AllocError> {
        let Some(book) = make_book(words, out)? else {
            return Ok(());
        };
        self.book = book;
        say_answer(out, "load", self.watch.load(&self.book))
    }

    fn resume(&mut self, words: &[u8], out: &mut String) -> Result<(), AllocError> {
        let (cue, len) = two_words(words);
        say_answer(out, "resume", self.watch.resume((low_16(cue), low_16(len))))
    }

    fn follow(&mut self, words: &[u8], out: &mut String) -> Result<(), AllocError> {
        let (count, text) = two_words(words);
        let mut entries = vec![in *out.allocator(); Entry::default(); low_20(count)]?;
        let done = self.watch.follow(&self.book, text, entries.as_mut_slice());
        writeln!(
            out,
            "follow {} {} {}",
            done.taken,
            done.written,
            done.ending.number()
        )?;
        for entry in entries.iter().take(done.written) {
            writeln!(out, "e {} {} {}", entry.place, entry.cue, entry.len)?;
        }
        Ok(())
    }

    // The sightings, the standing and the wait.
    fn questions(&self, out: &mut String) -> Result<(), AllocError> {
        write!(out, "q")?;
        for (cue, len) in (1..=self.watch.sighted()).filter_map(|i| self.watch.sighting(i)) {
            write!(out, " {cue}:{len}")?;
        }
        let (cue, len) = self.watch.standing();
        write!(out, " | {cue} {len} | ")?;
        match self.watch.wait(&self.book) {
            Some(n) => write!(out, "{n}"),
            None => write!(out, "-"),
        }
    }
}
