// Running a script: a machine by the kind that the script asks for, and a lane.

use crate::command::{Call, Command};
use crate::desk::{Desk, say_refusal};
use crate::words::{low_32, split_word, two_words};
use bits::BitEngine;
use links::LinkEngine;
use std::alloc::{AllocError, Global};
use studio::Lane;

// Which engine the script's watch stands above. The script says it line by line, so it is no type parameter.
#[derive(Drop)]
enum Machine {
    Link(Desk<LinkEngine>),
    Bit(Desk<BitEngine>),
}

impl Machine {
    // A machine of the kind that a word names: `B` above the bit engine, any other above the link engine.
    fn new(heap: Global, kind: &[u8]) -> Result<Machine, AllocError> {
        if kind.first() == Some(&b'B') {
            return Ok(Machine::Bit(Desk::new(heap, BitEngine::new(heap)?)));
        }
        Ok(Machine::Link(Desk::new(heap, LinkEngine::new(heap)?)))
    }

    // One call or question; the link engine tells its trials too.
    fn answer(&mut self, call: Call, words: &[u8], out: &mut String) -> Result<(), AllocError> {
        match self {
            Machine::Link(desk) => {
                desk.answer(call, words, out)?;
                if call == Call::Questions {
                    writeln!(out, " | {}", desk.engine().trials())?;
                }
            }
            Machine::Bit(desk) => {
                desk.answer(call, words, out)?;
                if call == Call::Questions {
                    writeln!(out)?;
                }
            }
        }
        Ok(())
    }
}

// A machine and a lane.
#[derive(Drop)]
struct State {
    machine: Machine,
    lane: Lane,
}

impl State {
    // A machine of this kind and a new lane.
    fn new(heap: Global, kind: &[u8]) -> Result<State, AllocError> {
        Ok(State {
            machine: Machine::new(heap, kind)?,
            lane: Lane::new(),
        })
    }

    fn answer(
        &mut self,
        command: Command,
        words: &[u8],
        out: &mut String,
    ) -> Result<(), AllocError> {
        match command {
            Command::New => {
                *self = State::new(*out.allocator(), words)?;
                writeln!(out, "new")
            }
            Command::Offer => self.offer(words, out),
            Command::Watch(call) => self.machine.answer(call, words, out),
        }
    }

    fn offer(&mut self, words: &[u8], out: &mut String) -> Result<(), AllocError> {
        let (end, len) = two_words(words);
        match self.lane.offer(low_32(end), low_32(len)) {
            Ok(true) => writeln!(out, "mark"),
            Ok(false) => writeln!(out, "pass"),
            Err(refusal) => say_refusal(out, "offer", refusal),
        }
    }
}

// The answers to all commands.
pub(crate) fn answers(heap: Global, input: &[u8]) -> Result<String, AllocError> {
    let mut out = String::new(heap);
    let mut state = State::new(heap, b"K")?;
    for line in input.split(|b| *b == b'\n') {
        let (name, words) = split_word(line);
        if let Some(command) = Command::of(name) {
            state.answer(command, words, &mut out)?;
        }
    }
    Ok(out)
}
