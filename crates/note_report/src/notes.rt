// What notes writes for an input.

ghost use Rattle.std.specs.Prelude.{◌≡◌, IfOk};
ghost use Rattle.note_report.specs.Inputs.{ReadsOnce};
ghost use Rattle.note_report.specs.Reported.{notes_report, NotesOnce};

use crate::reading::read_notes;
use report::report_input;
use script::Layout;
use std::alloc::{AllocError, Global};

// All that is written for an input of words, a line for each, a parting line and a text: a line for each
// place where a word ends, then the totals, or in their place the refusal with its line.
pub fn notes_report(heap: Global, input: &[u8]) -> Result<Vec<u8>, AllocError>
    ensures value { IfOk result (λ v. v.items ≡ notes_report input.now) }
    ensures says { ReadsOnce input.now }
    ensures once { NotesOnce input.now }
{
    report_input(heap, input, Layout::PerCue, read_notes)
}
