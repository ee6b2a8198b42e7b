// Frames one behind the other: a header of a letter, a blank, the payload's length in 7 columns and byte
// 10, and then the payload.

ghost use Rattle.std.specs.Prelude.{◌≡◌, length};
ghost use Rattle.std.specs.Iterator.{at_most};

use columns::{read_number, split_line};

// One more than the greatest length of a payload.
const LENGTHS: u32 = 10_000_000;

const HEADER: usize = 10;

// A frame: the letter that says what it is, and its payload. A letter and no enum: each program has kinds
// of its own.
#[derive(Clone, Copy, PartialEq, Eq, Debug)]
pub struct Frame<'a> {
    pub letter: u8,
    pub payload: &'a [u8],
}

// The frames at the front of an input. They end where a header is not good or the payload is cut off.
#[derive(Clone, Copy, Debug)]
pub struct Frames<'a> {
    rest: &'a [u8],
}

impl<'a> Frames<'a> {
    ghost use Rattle.frames.specs.Frames.{rest_of};

    pub fn new(input: &'a [u8]) -> Frames<'a>
        ensures { rest_of result ≡ input.now }
    {
        Frames { rest: input }
    }
}

impl<'a> Iterator for Frames<'a> {
    ghost use Rattle.frames.specs.Frames.{GivesFrame, rest_of};

    type Item = Frame<'a>;

    ghost next_gives = { λ s r t. GivesFrame (rest_of s) r (rest_of t) };

    ghost remaining = { λ s. at_most (length (rest_of s)) };

    fn next(&mut self) -> Option<Frame<'a>> {
        let (header, behind) = split_line(self.rest);
        if header.len() != HEADER {
            return None;
        }
        let len = read_number(&header[2..9], LENGTHS)? as usize;
        let payload = behind.get(..len)?;
        self.rest = behind.get(len..)?;
        Some(Frame {
            letter: header[0],
            payload,
        })
    }
}
