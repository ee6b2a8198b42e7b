// Adding the cues of a sheet to a draft, with a line for each.

ghost use Rattle.std.specs.Prelude.{◌≡◌, ℕ, ◌^◌, ◌<◌, List, ◌++◌, sum, IfOk, Option as OptionOf};
ghost use Rattle.std.specs.Result.{result_err};
ghost use Rattle.book.specs.Held.{draft_held, Signed};
ghost use Rattle.columns.specs.AsRuns.{same_as_run};
ghost use Rattle.events.specs.declared.Refusal.{Refusal as RefusalOf};
ghost use Rattle.script.specs.Booking.{cues_at};
ghost use Rattle.script.specs.Report.{refused_or};
ghost use Rattle.sheet.specs.Report.{last_line, listing};

use book::Draft;
use columns::{AsRun, entry_line};
use events::Refusal;
use std::alloc::{AllocError, Global};

// The reports of the other programs add cues in the same way, but write nothing for a cue that is granted, and
// so cannot want memory: one function for both would need a closure and its state in each contract.
//
// Adds cues of these lengths, one behind the other, and writes a line for each. It ends at the first
// that is refused, and answers the refusal with the number of that cue's last line.
pub(crate) fn list_cues(
    out: &mut Vec<u8>,
    draft: &mut Draft<AsRun>,
    lens: &[usize],
) -> Result<Result<(), (Refusal, usize)>, AllocError>
    requires signed { Signed same_as_run (draft_held draft.old) }
    requires size { sum lens.now < 2 ^ 63 }
    ensures { IfOk result (λ r. (lines : ℕ) (stop : OptionOf RefusalOf) → out.new.items ++ refused_or (result_err r) (last_line (draft_held draft.new) lines stop) ≡ out.old.items ++ listing same_as_run (draft_held draft.old) (cues_at 0 lens.now) lines stop) }
{
    // The place is a sum beside the loop: a granted cue's line tells it.
    let mut place = 0;
    for len in lens {
        let end = place + *len;
        match draft.add(place, *len) {
            Ok(number) => {
                let line = entry_line(place as u64, number as u64, *len as u64);
                out.extend_from_slice(&line)?;
            }
            Err(refusal) => return Ok(Err((refusal, end))),
        }
        place = end;
    }
    Ok(Ok(()))
}
