// A program that reads all its input, and writes one answer.

#![tactic(auto)]

ghost use Rattle.std.specs.Prelude.{◌≡◌, take, Ok, OnOk, IfSome, vec_items};
ghost use Rattle.std.specs.Io.KnownBytes.{Appends};

use std::alloc::{AllocError, Global};
use std::io::{Read, Write};

// One byte more than an input may have, so that a longer input is seen to be longer. The limit itself stands in
// `script`, which this crate needs for nothing else.
const READ: u64 = 32_769;

// Reads the input, up to one byte more than it may have, and writes what the report answers of it. After
// an `Err` a part of that may be written.
pub fn run<R: Read + Drop, W: Write, F: FnOnce(Global, &[u8]) -> Result<Vec<u8>, AllocError>>(
    heap: Global,
    input: R,
    output: &mut W,
    report: F,
) -> anyhow::Result<()>
    requires { F.IsAlwaysCallable report }
    ensures { OnOk result ((bytes : _) × (out : _) × F.post report heap bytes (Ok out)
        × Appends (W.contents output.old) (W.contents output.new) (vec_items out)
        × IfSome (R.remaining input) (λ xs. bytes.now ≡ take READ xs)) }
{
    let mut bytes = Vec::new(heap);
    input.take(READ).read_to_end(&mut bytes)?;
    let out = report(heap, bytes.as_slice())?;
    output.write_all(out.as_slice())?;
    Ok(())
}

#[cfg(test)]
mod tests {
    use super::run;

    // What `run` writes of these bytes, where the report is of their first byte and their number.
    fn written(rt: &HostRuntime, input: &[u8]) -> anyhow::Result<Vec<u8>> {
        let mut output = Vec::from_slice(rt.alloc(), b"> ")?;
        run(rt.alloc(), input, &mut output, |heap, bytes| {
            let last = *bytes.last().unwrap_or(&b'-');
            Vec::from_slice(heap, &[last, (bytes.len() % 256) as u8])
        })?;
        Ok(output)
    }

    #[test]
    fn all_of_a_short_input(rt: HostRuntime) -> anyhow::Result<()> {
        assert!(rt; written(&rt, b"abc")?.as_slice() == b"> c\x03".as_slice());
        assert!(rt; written(&rt, b"")?.as_slice() == b"> -\x00".as_slice());
        Ok(())
    }

    #[test]
    fn the_front_of_a_long_input(rt: HostRuntime) -> anyhow::Result<()> {
        let mut input = Vec::new(rt.alloc());
        input.resize(32_768, b'a')?;
        input.extend_from_slice(b"bcd")?;
        assert!(rt; written(&rt, input.as_slice())?.as_slice() == b"> b\x01".as_slice());
        Ok(())
    }
}
