// Runs the cases of an independent program: frames on standard input, an answer for each on standard
// output.

#![tactic(auto)]

use columns::{Line, Section, entry_line, read_line, refusal_line, total_line};
use events::Refusal;
use frames::{answer_frames_anyhow, number_in};
use sheet::sheet_report;
use std::alloc::{AllocError, Global};
use std::fmt;

// What a frame asks, by its letter.
#[derive(Clone, Copy, PartialEq, Eq, Debug)]
enum Question {
    // the report of a cue sheet
    Sheet,
    // what a line of this section is read as
    Read(Section),
    // the three kinds of line that are written, of three numbers
    Written,
}

impl Question {
    // An Option and no `TryFrom`: there is no error to tell.
    fn of(letter: u8) -> Option<Question> {
        match letter {
            b'S' => Some(Question::Sheet),
            b'C' => Some(Question::Read(Section::Cues)),
            b'L' => Some(Question::Read(Section::Log)),
            b'W' => Some(Question::Written),
            _ => None,
        }
    }
}

// What a line is read as, in words.
#[derive(Drop)]
struct Reading<'a>(Result<Line<'a>, Refusal>);

impl fmt::Display for Reading<'_> {
    fn fmt<W: fmt::Write>(&self, f: &mut fmt::Formatter<W>) -> fmt::Result {
        let line = match &self.0 {
            Err(Refusal::Unreadable { column }) => return writeln!(f, "column {column}"),
            Err(_) => return writeln!(f, "refused"),
            Ok(Line::Parting) => return writeln!(f, "parting"),
            Ok(line) => line,
        };
        let Some(event) = line.event() else {
            return writeln!(f, "no event");
        };
        let (kind, cart) = (event.kind(), event.cart());
        match line.cue_number() {
            Some(number) => writeln!(f, "cue {number} {kind} {cart}"),
            None => writeln!(f, "log {} {kind} {cart}", event.second()),
        }
    }
}

// Three decimal numbers, parted by single blanks.
fn three_numbers(payload: &[u8]) -> [u64; 3] {
    let mut numbers = [0u64; 3];
    for (number, word) in numbers.iter_mut().zip(payload.split(|b| *b == b' ')) {
        *number = number_in(word);
    }
    numbers
}

// The three kinds of line that are written, of three numbers.
fn written(heap: Global, payload: &[u8]) -> Result<Vec<u8>, AllocError> {
    let [a, b, c] = three_numbers(payload);
    let mut out = Vec::new(heap);
    out.extend_from_slice(&entry_line(a, b, c))?;
    out.extend_from_slice(&total_line(a, b))?;
    out.extend_from_slice(&refusal_line(b, c))?;
    Ok(out)
}

// The answer to one frame.
fn answer(heap: Global, letter: u8, payload: &[u8]) -> Result<Vec<u8>, AllocError> {
    match Question::of(letter) {
        Some(Question::Sheet) => {
            let mut out = sheet_report(heap, payload)?;
            out.extend_from_slice(b"--\n")?;
            Ok(out)
        }
        Some(Question::Read(section)) => {
            let text = format!(in heap; "{}", Reading(read_line(section, payload)))?;
            Ok(text.into_bytes())
        }
        Some(Question::Written) => written(heap, payload),
        None => Vec::from_slice(heap, b"no such frame\n"),
    }
}

fn main(rt: HostRuntime) -> anyhow::Result<()> {
    answer_frames_anyhow(rt.alloc(), &mut rt.stdin(), &mut rt.stdout(), answer)
}
