// A book and a text of random letters, and the searches of the text.

ghost use Rattle.std.specs.Prelude.{◌<◌};

use crate::dice::Dice;
use bits::BitEngine;
use book::{Book, Draft};
use engine::Engine;
use links::LinkEngine;
use std::alloc::{AllocError, Global};
use std::io;
use std::time::Instant;

// The number of signs of a text.
const TEXT: usize = 1_000_000;

const MATERIAL: usize = 1000;

// A book of so many cues of 2 up to a number of letters; a cue that is refused is left out.
fn make_book(heap: Global, dice: &mut Dice, cues: usize, most: u64) -> Result<Book<u8>, AllocError>
    requires { 0 < most }
{
    let letters = (0..MATERIAL).map(|_| dice.roll_letter()).collect(heap)?;
    let mut draft = Draft::begin(heap, letters)?;
    let mut place = 0usize;
    // Repeated, with no index: a cue that is refused takes its place all the same.
    for _ in 0..cues {
        let len = (dice.roll(most) as usize).wrapping_add(2);
        let _ = draft.add(place, len);
        place = place.wrapping_add(len);
    }
    Ok(draft.seal())
}

// What some work answers, and how many nanoseconds it took.
fn timed<T: Drop, F: FnOnce() -> T>(rt: &HostRuntime, work: F) -> io::Result<(T, u128)>
    requires { F.IsAlwaysCallable work }
{
    let start = Instant::now(rt)?;
    let answer = work();
    Ok((answer, start.elapsed(rt)?.as_nanos()))
}

// All sightings of an engine along the text.
fn run_engine<L: Engine>(engine: &mut L, text: &[u16]) -> u64 {
    text.iter().fold(0u64, |seen, sign| {
        engine.step(*sign);
        seen.wrapping_add(engine.sighted() as u64)
    })
}

// How many cues of the book end a text.
fn naive_at(book: &Book<u8>, text: &[u16]) -> usize {
    (0..book.cues().len())
        .filter(|c| text.ends_with(book.cue_signs(*c)))
        .count()
}

// All sightings by comparing each cue at each place.
fn run_naive(book: &Book<u8>, text: &[u16]) -> u64 {
    (1..=text.len()).fold(0u64, |seen, end| {
        seen.wrapping_add(naive_at(book, &text[..end]) as u64)
    })
}

// The time of a load, the time of one sign, and the number of sightings.
#[derive(Clone, Copy, Debug)]
struct Search {
    load: u128,
    each: u128,
    seen: u64,
}

#[derive(Drop)]
pub(crate) struct Case {
    book: Book<u8>,
    // the signs under the book
    text: Vec<u16>,
}

impl Case {
    pub(crate) fn new(
        rt: &HostRuntime,
        dice: &mut Dice,
        cues: usize,
        most: u64,
    ) -> anyhow::Result<Case>
        requires { 0 < most }
    {
        let book = make_book(rt.alloc(), dice, cues, most)?;
        let text = (0..TEXT)
            .map(|_| book.sign(&dice.roll_letter()))
            .collect(rt.alloc())?;
        let (cues, signs) = (book.cues().len(), book.total());
        eprintln!(rt; "{cues} cues of {signs} signs, a text of {TEXT} signs")?;
        Ok(Case { book, text })
    }

    // How many cues the book has.
    pub(crate) fn cues(&self) -> usize {
        self.book.cues().len()
    }

    pub(crate) fn naive(&self, rt: &HostRuntime) -> anyhow::Result<u64> {
        let (seen, time) = timed(rt, || run_naive(&self.book, self.text.as_slice()))?;
        let each = time / 1_000_000;
        eprintln!(rt; "naive: {each} ns for each sign, {seen} sightings")?;
        Ok(seen)
    }

    fn search<L: Engine + Drop>(&self, rt: &HostRuntime, mut engine: L) -> io::Result<Search> {
        let (_, load) = timed(rt, || engine.load(&self.book))?;
        let (seen, time) = timed(rt, || run_engine(&mut engine, self.text.as_slice()))?;
        let each = time / 1_000_000;
        Ok(Search { load, each, seen })
    }

    pub(crate) fn link(&self, rt: &HostRuntime) -> anyhow::Result<u64> {
        let Search { load, each, seen } = self.search(rt, LinkEngine::new(rt.alloc())?)?;
        eprintln!(rt; "link: {each} ns for each sign, load {load} ns, {seen} sightings")?;
        Ok(seen)
    }

    pub(crate) fn bit(&self, rt: &HostRuntime) -> anyhow::Result<u64> {
        let Search {
            load: _,
            each,
            seen,
        } = self.search(rt, BitEngine::new(rt.alloc())?)?;
        eprintln!(rt; "bit: {each} ns for each sign, {seen} sightings")?;
        Ok(seen)
    }
}
