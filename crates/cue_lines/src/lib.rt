// Reading the cue lines at the front of an input.

#![tactic(auto)]

mod reading;
mod row;

pub use reading::read_cues;

#[cfg(test)]
mod tests {
    use crate::read_cues;
    use events::Refusal;
    use script::Cues;
    use std::test::Fail;

    #[test]
    fn reads(rt: HostRuntime) -> Result<(), Fail> {
        let mut cues = Cues::new(rt.alloc());
        let behind = read_cues(
            &mut cues,
            b"   0 J     10\n   0 S     20\n   1 S     20\n\n    5 M      3\n",
        )?;
        assert!(rt; matches!(behind, Ok(b"    5 M      3\n")));
        assert!(rt; cues.count() == 2);
        let (events, lens) = cues.into_parts();
        assert_eq!(rt; events.len(), 3);
        assert_eq!(rt; lens.as_slice(), [2, 1].as_slice());
        Ok(())
    }

    #[test]
    fn refuses(rt: HostRuntime) -> Result<(), Fail> {
        let mut cues = Cues::new(rt.alloc());
        let behind = read_cues(&mut cues, b"   0 J     10\n   2 S     20\n")?;
        assert!(rt; matches!(behind, Err(Refusal::Misnumbered)));
        let none = read_cues(&mut cues, b"")?;
        assert!(rt; matches!(none, Err(Refusal::Unreadable { column: 0 })));
        Ok(())
    }
}
