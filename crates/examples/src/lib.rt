// The worked examples: as facts of the definitions, and run.

#![tactic(auto)]

ghost use Rattle.examples.specs.Runs.{LogRuns};
ghost use Rattle.examples.specs.Worked.{Worked};

// The definitions give what the worked examples say.
pub fn examples_hold()
    ensures { Worked }
{}

// The definitions give the entries of the worked log by its events too, with no sign in between.
pub fn log_runs_hold()
    ensures { LogRuns }
{}

#[cfg(test)]
mod tests {
    use book::Draft;
    use columns::{Kind, Section, entry_line, read_line};
    use events::{Event, Refusal};
    use std::test::Fail;

    #[test]
    fn lengths(rt: HostRuntime) -> Result<(), Fail> {
        let events = b"abcdefghijklmnopqrstuvwxyz0123456789".to_vec(rt.alloc())?;
        let mut draft = Draft::begin(rt.alloc(), events)?;
        assert!(rt; matches!(draft.add(0, 0), Err(Refusal::EmptyCue)));
        assert!(rt; matches!(draft.add(0, 32), Ok(0)));
        assert!(rt; matches!(draft.add(0, 33), Err(Refusal::LongCue)));
        assert!(rt; matches!(draft.add(35, 2), Err(Refusal::BehindMaterial)));
        assert!(rt;
            matches!(
                draft.add(18446744073709551615, 18446744073709551615),
                Err(Refusal::LongCue)
            )
        );
        assert!(rt;
            matches!(
                draft.add(18446744073709551615, 2),
                Err(Refusal::BehindMaterial)
            )
        );
        assert!(rt; matches!(draft.add(0, 32), Err(Refusal::SameCue)));
        assert!(rt; matches!(draft.add(35, 1), Ok(1)));
        let book = draft.seal();
        assert!(rt; book.cues().len() == 2);
        assert!(rt; book.total() == 33);
        assert!(rt; book.sign(&b'C') == 2);
        assert!(rt; book.sign(&b'!') == 2048);
        Ok(())
    }

    #[test]
    fn letters(rt: HostRuntime) {
        assert!(rt; b'A'.same(&b'a'));
        assert!(rt; b't'.same(&b'T'));
        assert!(rt; !64u8.same(&96));
        assert!(rt; !b'a'.same(&b'b'));
    }

    #[test]
    fn lines(rt: HostRuntime) -> Result<(), Fail> {
        let line = read_line(Section::Log, b"86399 N 999999\n")?;
        let Some(event) = line.event() else {
            return Err(Fail::new("no event"));
        };
        assert!(rt; event.second() == 86399);
        assert!(rt; event.cart() == 999999);
        assert!(rt; matches!(event.kind(), Kind::News));
        assert!(rt;
            matches!(
                read_line(Section::Log, b"86400 N 999999\n"),
                Err(Refusal::Unreadable { column: 1 })
            )
        );
        assert_eq!(rt;
            entry_line(3, 0, 2).as_slice(),
            b"      3    0  2\n".as_slice()
        );
        Ok(())
    }
}
