// The link engine and the watch above it as functions, for measuring them beside other programs. Each call
// makes a book, loads it and searches a text. The crate `bench_api_c` offers them to C and Rust.

#![tactic(auto)]

mod cues;
mod fault;
mod number;
mod tally;

pub use crate::cues::Cues;
pub use crate::fault::Fault;
pub use crate::number::Number;
pub use crate::tally::Tally;
use book::{Book, Entry};
use engine::Engine;
use links::LinkEngine;
use std::alloc::Global;
use watch::Watch;

// How many entries one round of following has room for; each caller of follow chooses for itself.
const ENTRIES: usize = 512;

// The link engine alone: one step for each sign, and the sightings after each.
pub fn try_step(heap: Global, cues: Cues<'_>, signs: &[u16]) -> Result<Tally, Fault> {
    let book = cues.book(heap)?;
    let mut engine = LinkEngine::new(heap)?;
    engine.load(&book)?;
    let mut tally = Tally::default();
    for (place, sign) in signs.iter().enumerate() {
        engine.step(*sign);
        for (cue, len) in (1..=engine.sighted()).filter_map(|i| engine.sighting(i)) {
            tally.count(place as u64, cue, len);
        }
    }
    Ok(tally)
}

// Follows the events in rounds, each with the same list of entries, and counts what is written. The reports write
// a line for each entry instead and may want memory. A round that takes no event would take none again.
// Watch and book are its own: of a borrowed watch each event would write the fields back to memory.
fn follow_rounds(
    mut watch: Watch<LinkEngine>,
    book: Book<Number>,
    text: &[Number],
    entries: &mut [Entry],
) -> Tally {
    let mut tally = Tally::default();
    let mut rest = text;
    while !rest.is_empty() {
        let followed = watch.follow(&book, rest, entries);
        let written = entries.get(..followed.written).unwrap_or(&[]);
        for entry in written {
            tally.count(u64::from(entry.place), entry.cue, entry.len);
        }
        match rest.get(followed.taken..) {
            Some(more) if followed.taken > 0 => rest = more,
            _ => break,
        }
    }
    tally
}

// The watch above the link engine: all events followed.
pub fn try_follow(heap: Global, cues: Cues<'_>, text: &[Number]) -> Result<Tally, Fault> {
    let book = cues.book(heap)?;
    let mut watch = Watch::new(heap, LinkEngine::new(heap)?);
    watch.load(&book)?;
    let mut entries = [Entry::default(); ENTRIES];
    Ok(follow_rounds(watch, book, text, &mut entries))
}

// Writes the signs of the events under the book, for `try_step`, as far as there is room.
pub fn try_signs(
    heap: Global,
    cues: Cues<'_>,
    text: &[Number],
    signs: &mut [u16],
) -> Result<(), Fault> {
    let book = cues.book(heap)?;
    for (sign, event) in signs.iter_mut().zip(text) {
        *sign = book.sign(event);
    }
    Ok(())
}

// The same with no fault: a status in the answer, which is the fault's where there is no book or engine.

pub fn bench_step(heap: Global, cues: &[Number], lens: &[u16], signs: &[u16]) -> Tally {
    Tally::from(try_step(heap, Cues { events: cues, lens }, signs))
}

pub fn bench_follow(heap: Global, cues: &[Number], lens: &[u16], text: &[Number]) -> Tally {
    Tally::from(try_follow(heap, Cues { events: cues, lens }, text))
}

// The answer is the status alone.
pub fn bench_signs(
    heap: Global,
    cues: &[Number],
    lens: &[u16],
    text: &[Number],
    signs: &mut [u16],
) -> u64 {
    match try_signs(heap, Cues { events: cues, lens }, text, signs) {
        Ok(()) => 0,
        Err(fault) => fault.status(),
    }
}

#[cfg(test)]
mod tests {
    use crate::{
        Cues, Fault, Number, bench_follow, bench_signs, bench_step, try_follow, try_signs, try_step,
    };
    use events::Refusal;
    use std::test::Fail;

    const CUES: [Number; 2] = [Number { value: 7 }, Number { value: 9 }];

    #[test]
    fn searches(rt: HostRuntime) -> Result<(), Fail> {
        let cues = Cues {
            events: &CUES,
            lens: &[2],
        };
        let mut signs = [0u16; 2];
        try_signs(rt.alloc(), cues, &CUES, &mut signs)?;
        assert_eq!(rt; signs.as_slice(), [0, 1].as_slice());
        let stepped = try_step(rt.alloc(), cues, &signs)?;
        let followed = try_follow(rt.alloc(), cues, &CUES)?;
        assert_eq!(rt; stepped.sightings, 1);
        assert!(rt; stepped == followed);
        Ok(())
    }

    #[test]
    fn refuses(rt: HostRuntime) {
        let cues = Cues {
            events: &CUES,
            lens: &[0],
        };
        let answer = try_step(rt.alloc(), cues, &[]);
        assert!(rt; matches!(answer, Err(Fault::Refused(Refusal::EmptyCue))));
    }

    #[test]
    fn answers_a_status(rt: HostRuntime) {
        let heap = rt.alloc();
        let mut signs = [0u16; 2];
        assert_eq!(rt; bench_signs(heap, &CUES, &[2], &CUES, &mut signs), 0);
        let stepped = bench_step(heap, &CUES, &[2], &signs);
        assert_eq!(rt; stepped.sightings, 1);
        assert!(rt; stepped == bench_follow(heap, &CUES, &[2], &CUES));
        assert_eq!(rt; bench_step(heap, &CUES, &[0], &signs).status, 1);
        assert_eq!(rt; bench_follow(heap, &CUES, &[3], &CUES).status, 3);
        assert_eq!(rt; bench_signs(heap, &CUES, &[1, 1, 1], &CUES, &mut signs), 3);
    }
}
