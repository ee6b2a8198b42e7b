// The report of a cue sheet: the cues that were added and the totals, or the refusal.

ghost use Rattle.std.specs.Prelude.{◌≡◌, ◌++◌, length, IfOk, MatchResult, OnOk, Ok, Err};
ghost use Rattle.std.specs.Result.{result_err};
ghost use Rattle.book.specs.Held.{draft_held};
ghost use Rattle.columns.specs.Written.{total_line};
ghost use Rattle.cue_lines.specs.Reading.{values_in};
ghost use Rattle.script.specs.Report.{refused_or};
ghost use Rattle.sheet.specs.Report.{sheet_listing, sheet_report};
ghost use Rattle.sheet.specs.Rows.{sheet_of};

use crate::listing::list_cues;
use book::Draft;
use columns::{AsRun, total_line};
use cue_lines::read_cues;
use events::Refusal;
use script::{Cues, is_long, refusal_text, refuse_long};
use std::alloc::{AllocError, Global};

// Writes the totals of the book, or why a line is refused. What this shares with the reports on texts is
// `refusal_text` and `total_line`; the totals are others.
fn write_last(
    out: &mut Vec<u8>,
    draft: Draft<AsRun>,
    end: Result<(), (Refusal, usize)>,
) -> Result<(), AllocError>
    ensures { OnOk result (out.new.items ≡ out.old.items ++ refused_or (result_err end) (total_line (length (draft_held draft).material) (length (draft_held draft).cues))) }
{
    match end {
        Ok(()) => {
            let book = draft.seal();
            let line = total_line(book.material().len() as u64, book.cues().len() as u64);
            out.extend_from_slice(&line)?;
        }
        Err((refusal, line)) => {
            out.extend_from_slice(&refusal_text(refusal, line))?;
        }
    }
    Ok(())
}

// How cue lines end, a refusal with the number of its line.
fn end_at(end: Result<(), Refusal>, line: usize) -> Result<(), (Refusal, usize)>
    ensures { MatchResult end (λ x. result ≡ Ok x) (λ refusal. result ≡ Err (refusal, line)) }
{
    end.map_err(|refusal| (refusal, line))
}

// The report of these cues, where their lines end with the parting line or a line that is refused.
fn list_sheet(
    heap: Global,
    cues: Cues<AsRun>,
    end: Result<(), Refusal>,
) -> Result<Vec<u8>, AllocError>
    ensures { IfOk result (λ v. v.items ≡ sheet_listing (sheet_of (values_in cues) end)) }
{
    let (events, lens) = cues.into_parts();
    let lines = events.len();
    let mut draft = Draft::begin(heap, events)?;
    let mut out = Vec::new(heap);
    let added = list_cues(&mut out, &mut draft, lens.as_slice())?;
    write_last(&mut out, draft, added.and(end_at(end, lines + 1)))?;
    Ok(out)
}

// What is written for an input: cue lines up to the parting line.
pub fn sheet_report(heap: Global, input: &[u8]) -> Result<Vec<u8>, AllocError>
    ensures { IfOk result (λ v. v.items ≡ sheet_report input.now) }
{
    if is_long(input) {
        return refuse_long(heap);
    }
    let mut cues = Cues::new(heap);
    let behind = read_cues(&mut cues, input)?;
    list_sheet(heap, cues, behind.and(Ok(())))
}
