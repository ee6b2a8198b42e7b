// The report of what an input says: the runs of its cues in its text and the totals, or a refusal.

#![tactic(auto)]

mod booking;
mod listing;
mod refusing;
mod whole;

pub use script::{is_long, refuse_long};
pub use whole::{report, report_input};

#[cfg(test)]
mod tests {
    use crate::report_input;
    use script::{Cues, Layout, Script};
    use std::alloc::{AllocError, Global};
    use std::test::Fail;

    // The first byte as a cue, and a text of three bytes.
    fn read(heap: Global, input: &[u8]) -> Result<Script<u8>, AllocError> {
        let mut cues = Cues::new(heap);
        if let Some(first) = input.first() {
            cues.begin(*first)?;
        }
        let mut text = Vec::new(heap);
        text.push(b'a')?;
        text.push(b'b')?;
        text.push(b'A')?;
        Ok(Script {
            cues,
            stop: None,
            text,
            end: None,
        })
    }

    #[test]
    fn reports(rt: HostRuntime) -> Result<(), Fail> {
        let out = report_input(rt.alloc(), b"a", Layout::PerCue, read)?;
        assert_eq!(rt;
            out.as_slice(),
            b"      0    0  1\n      2    0  1\n      3       2\n".as_slice()
        );
        Ok(())
    }

    #[test]
    fn refuses_a_long_input(rt: HostRuntime) -> Result<(), Fail> {
        let mut input = Vec::new(rt.alloc());
        input.resize(32_769, b'a')?;
        let out = report_input(rt.alloc(), input.as_slice(), Layout::PerCue, read)?;
        assert_eq!(rt; out.as_slice(), b"15       0\n".as_slice());
        Ok(())
    }
}
