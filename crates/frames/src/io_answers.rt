// Answering all frames of an input, where each error is one of input and output.

ghost use Rattle.std.specs.Prelude.{◌≡◌, Ok, OnOk};
ghost use Rattle.frames.specs.Answers.{WritesAnswers};

use crate::frame::Frames;
use std::alloc::{AllocError, Global};
use std::io;
use std::io::{Read, Write};

// Reads the input to its end, and writes the answer to each frame, in their order. A failed read or write is that
// error, with its kind, and an answer that wants memory is an error of the kind `OutOfMemory`; no clause says so. It
// cannot call `answer_frames_anyhow`, whose error is text alone.
pub fn answer_frames<I: Read, O: Write, F: Fn(Global, u8, &[u8]) -> Result<Vec<u8>, AllocError>>(
    heap: Global,
    input: &mut I,
    output: &mut O,
    answer: F,
) -> io::Result<()>
    requires { F.IsAlwaysCallable answer }
    ensures { OnOk result (WritesAnswers (λ frame said. (v : _) × F.post answer heap frame.letter frame.payload (Ok v) × (v.items ≡ said)) (I.remaining input.old) (O.contents output.old) (O.contents output.new)) }
{
    let mut bytes = Vec::new(heap);
    input.read_to_end(&mut bytes)?;
    for frame in Frames::new(bytes.as_slice()) {
        let said = answer(heap, frame.letter, frame.payload)?;
        output.write_all(said.as_slice())?;
    }
    Ok(())
}

#[cfg(test)]
mod tests {
    use super::answer_frames;
    use std::alloc::{AllocError, Global};
    use std::io;
    use std::io::{ErrorKind, Read, Write};
    use std::test::Fail;

    #[derive(Drop)]
    struct Broken;

    impl Read for Broken {
        fn read(&mut self, _: &mut [u8]) -> io::Result<usize> {
            Err(ErrorKind::ConnectionReset.into())
        }
    }

    impl Write for Broken {
        fn write(&mut self, _: &[u8]) -> io::Result<usize> {
            Err(ErrorKind::BrokenPipe.into())
        }

        fn flush(&mut self) -> io::Result<()> {
            Ok(())
        }
    }

    fn payload_of(heap: Global, _: u8, payload: &[u8]) -> Result<Vec<u8>, AllocError> {
        Vec::from_slice(heap, payload)
    }

    fn want_memory(_: Global, _: u8, _: &[u8]) -> Result<Vec<u8>, AllocError> {
        Err(AllocError)
    }

    #[test]
    fn answers_frames(rt: HostRuntime) -> Result<(), Fail> {
        let mut input = b"A       3\nabcB       0\nC       2\ndeD       2\nf".as_slice();
        let mut output = Vec::new(rt.alloc());
        answer_frames(rt.alloc(), &mut input, &mut output, payload_of)?;
        assert_eq!(rt; output.as_slice(), b"abcde".as_slice());
        Ok(())
    }

    #[test]
    fn gives_the_error(rt: HostRuntime) {
        let mut output = Vec::new(rt.alloc());
        let read = answer_frames(rt.alloc(), &mut Broken, &mut output, payload_of);
        assert!(rt; matches!(read, Err(e) if e.kind() == ErrorKind::ConnectionReset));
        let mut input = b"A       3\nabc".as_slice();
        let written = answer_frames(rt.alloc(), &mut input, &mut Broken, payload_of);
        assert!(rt; matches!(written, Err(e) if e.kind() == ErrorKind::BrokenPipe));
        let mut input = b"A       3\nabc".as_slice();
        let wanted = answer_frames(rt.alloc(), &mut input, &mut output, want_memory);
        assert!(rt; matches!(wanted, Err(e) if e.kind() == ErrorKind::OutOfMemory));
    }
}
