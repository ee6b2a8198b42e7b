// Runs the inputs that an independent program made for airings and notes: frames on standard input, what
// the program of the frame's letter writes and a line of two hyphens on standard output.

#![tactic(auto)]

use airing_report::airings_report;
use frames::answer_frames_anyhow;
use note_report::notes_report;
use std::alloc::{AllocError, Global};

// A program, by its letter.
#[derive(Clone, Copy, PartialEq, Eq, Debug)]
enum Program {
    Airings,
    Notes,
}

impl Program {
    // An Option and no `TryFrom`: there is no error to tell.
    fn of(letter: u8) -> Option<Program> {
        match letter {
            b'A' => Some(Program::Airings),
            b'N' => Some(Program::Notes),
            _ => None,
        }
    }
}

// The answer to one frame.
fn answer(heap: Global, letter: u8, payload: &[u8]) -> Result<Vec<u8>, AllocError> {
    let mut out = match Program::of(letter) {
        Some(Program::Airings) => airings_report(heap, payload)?,
        Some(Program::Notes) => notes_report(heap, payload)?,
        None => Vec::from_slice(heap, b"no such frame\n")?,
    };
    out.extend_from_slice(b"--\n")?;
    Ok(out)
}

fn main(rt: HostRuntime) -> anyhow::Result<()> {
    answer_frames_anyhow(rt.alloc(), &mut rt.stdin(), &mut rt.stdout(), answer)
}
