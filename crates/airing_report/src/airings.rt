// What airings writes for an input.

ghost use Rattle.std.specs.Prelude.{◌≡◌, IfOk};
ghost use Rattle.airing_report.specs.Inputs.{ReadsOnce};
ghost use Rattle.airing_report.specs.Reported.{airings_report, AiringsOnce, Shorter};

use crate::reading::read_airings;
use report::report_input;
use script::Layout;
use std::alloc::{AllocError, Global};

// All that is written for an input of cue lines, a parting line and log lines: a line for each run of a
// cue, then the totals, or in their place the refusal with its line.
pub fn airings_report(heap: Global, input: &[u8]) -> Result<Vec<u8>, AllocError>
    ensures value { IfOk result (λ v. v.items ≡ airings_report input.now) }
    ensures says { ReadsOnce input.now }
    ensures once { AiringsOnce input.now }
    ensures shorter { Shorter input.now }
{
    report_input(heap, input, Layout::PerEvent, read_airings)
}
