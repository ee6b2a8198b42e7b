// Reading the lines of cues, and the text behind them.

ghost use Rattle.std.specs.Prelude.{◌≡◌, ◌<◌, ◌≤◌, [], ◌∷◌, ◌++◌, length, IfOk, MatchOption, OnOk};
ghost use Rattle.script.specs.Listed.{cues_of};
ghost use Rattle.script.specs.Report.{contents_of};
ghost use Rattle.note_report.specs.Inputs.{Unbroken};
ghost use Rattle.note_report.specs.Reading.{read_notes, with_text, without_text};

use columns::split_line;
use events::Refusal;
use script::{Cues, Script};
use std::alloc::{AllocError, Global};

// The first line without its byte 10, and what stands behind that; none where no byte 10 is left.
fn ended_line(input: &[u8]) -> Option<(&[u8], &[u8])>
    ensures { MatchOption result (Unbroken input.now) (λ p. (input.now ≡ p.0.now ++ (10 ∷ p.1.now)) × Unbroken p.0.now) }
{
    let (line, behind) = split_line(input);
    let (last, bytes) = line.split_last()?;
    if *last != b'\n' {
        return None;
    }
    Some((bytes, behind))
}

// Adds a cue of these bytes.
fn add_cue(cues: &mut Cues<u8>, bytes: &[u8]) -> Result<(), AllocError>
    requires { 0 < length bytes.now }
    ensures { OnOk result (cues_of cues.new ≡ cues_of cues.old ++ bytes.now ∷ []) }
{
    let (first, others) = bytes.split_first().unwrap();
    cues.begin(*first)?;
    for b in others {
        cues.extend(*b)?;
    }
    Ok(())
}

// Cues with a parting line, and the text behind it.
fn with_text(heap: Global, cues: Cues<u8>, text: &[u8]) -> Result<Script<u8>, AllocError>
    requires { length text.now ≤ 9999999 }
    ensures { IfOk result (λ s. contents_of s ≡ with_text (cues_of cues) text.now) }
{
    Ok(Script {
        cues,
        stop: None,
        text: Vec::from_slice(heap, text)?,
        end: None,
    })
}

// Cues with no parting line behind them.
fn without_text(heap: Global, cues: Cues<u8>) -> Script<u8>
    ensures { contents_of result ≡ without_text (cues_of cues) }
{
    Script {
        cues,
        stop: Some(Refusal::Unreadable { column: 0 }),
        text: Vec::new(heap),
        end: None,
    }
}

// What an input of notes says.
pub(crate) fn read_notes(heap: Global, input: &[u8]) -> Result<Script<u8>, AllocError>
    requires { length input.now ≤ 32768 }
    ensures { IfOk result (λ s. contents_of s ≡ read_notes input.now) }
{
    let mut cues = Cues::new(heap);
    let mut rest = input;
    while let Some((cue, behind)) = ended_line(rest) {
        if cue.is_empty() {
            return with_text(heap, cues, behind);
        }
        add_cue(&mut cues, cue)?;
        rest = behind;
    }
    Ok(without_text(heap, cues))
}
