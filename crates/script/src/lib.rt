// What an input of a program says, whatever its format: cues, and a text to look for them in; and the limit
// on an input.

#![tactic(auto)]

mod contents;
mod cues;
mod limit;
mod refusing;

pub use contents::{Layout, Script};
pub use cues::Cues;
pub use limit::{is_long, refuse_long};
pub use refusing::refusal_text;

#[cfg(test)]
mod tests {
    use crate::{is_long, refuse_long};
    use std::test::Fail;

    #[test]
    fn limit(rt: HostRuntime) -> Result<(), Fail> {
        assert!(rt; !is_long(b"\n"));
        let out = refuse_long(rt.alloc())?;
        assert_eq!(rt; out.as_slice(), b"15       0\n".as_slice());
        Ok(())
    }
}
