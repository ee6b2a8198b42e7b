// Answering all frames of an input.

ghost use Rattle.std.specs.Prelude.{◌≡◌, Ok, OnOk};
ghost use Rattle.frames.specs.Answers.{WritesAnswers};

use crate::frame::Frames;
use std::alloc::{AllocError, Global};
use std::io::{Read, Write};

// Reads the input to its end, and writes the answer to each frame, in their order. An answer that wants memory is
// that error as it is, and no error of reading or writing.
pub fn answer_frames_anyhow<
    I: Read,
    O: Write,
    F: Fn(Global, u8, &[u8]) -> Result<Vec<u8>, AllocError>,
>(heap: Global, input: &mut I, output: &mut O, answer: F) -> anyhow::Result<()>
    requires { F.IsAlwaysCallable answer }
    ensures { OnOk result (WritesAnswers (λ frame said. (v : _) × F.post answer heap frame.letter frame.payload (Ok v) × (v.items ≡ said)) (I.remaining input.old) (O.contents output.old) (O.contents output.new)) }
{
    let mut bytes = Vec::new(heap);
    input.read_to_end(&mut bytes)?;
    for frame in Frames::new(bytes.as_slice()) {
        let said = answer(heap, frame.letter, frame.payload)?;
        output.write_all(said.as_slice())?;
    }
    Ok(())
}

#[cfg(test)]
mod tests {
    use super::answer_frames_anyhow;
    use std::alloc::{AllocError, Global};

    fn echo(heap: Global, letter: u8, payload: &[u8]) -> Result<Vec<u8>, AllocError> {
        let mut said = Vec::from_slice(heap, payload)?;
        said.push(letter)?;
        Ok(said)
    }

    #[test]
    fn answers_whole_frames(rt: HostRuntime) -> anyhow::Result<()> {
        let mut input = b"A       3\nabcB       0\nC       2\nd".as_slice();
        let mut output = Vec::new(rt.alloc());
        answer_frames_anyhow(rt.alloc(), &mut input, &mut output, echo)?;
        assert!(rt; output.as_slice() == b"abcAB".as_slice());
        Ok(())
    }
}
