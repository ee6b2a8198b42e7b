// The whole report.

ghost use Rattle.std.specs.Prelude.{◌≡◌, ◌<◌, ◌≤◌, ◌++◌, length, Ok, IfOk, OnOk};
ghost use Rattle.script.specs.Answered.{longest_input, too_long_report};
ghost use Rattle.script.specs.Report.{contents_of, last_line, report_of};
ghost use Rattle.script.specs.Told.{ReportedOnce};

use crate::booking::{book_cues, lines_of};
use crate::listing::list_runs;
use crate::refusing::refuse;
use book::Draft;
use columns::total_line;
use events::{Event, Refusal};
use script::{Layout, Script, is_long, refusal_text, refuse_long};
use std::alloc::{AllocError, Global};

// Writes the totals, or why the line behind the text's events is refused. `end` is that of a `Script`.
fn write_last(
    out: &mut Vec<u8>,
    end: Option<Refusal>,
    line: usize,
    events: usize,
    sightings: usize,
) -> Result<(), AllocError>
    ensures { OnOk result (out.new.items ≡ out.old.items ++ last_line end line events sightings) }
{
    match end {
        None => out.extend_from_slice(&total_line(events as u64, sightings as u64)),
        Some(refusal) => out.extend_from_slice(&refusal_text(refusal, line)),
    }
}

// Writes the report.
fn write_report<E: Event + Drop>(
    heap: Global,
    layout: Layout,
    script: Script<E>,
) -> Result<Vec<u8>, AllocError>
    ensures { IfOk result (λ v. v.items ≡ report_of E.Event.same layout (contents_of script)) }
{
    let Script {
        cues,
        stop,
        text,
        end,
    } = script;
    let (events, lens) = cues.into_parts();
    let lines = lines_of(layout, lens.len(), events.len());
    let mut draft = Draft::begin(heap, events)?;
    if let Err((refusal, line)) = book_cues(&mut draft, layout, lens.as_slice()) {
        return refuse(heap, refusal, line);
    }
    if let Some(refusal) = stop {
        return refuse(heap, refusal, lines + 1);
    }
    let book = draft.seal();
    let mut out = Vec::new(heap);
    let sightings = list_runs(heap, &mut out, &book, text.as_slice())?;
    let events = text.len();
    write_last(&mut out, end, lines + events + 2, events, sightings)?;
    Ok(out)
}

// All that is written of what an input says. There is exactly one report of it.
pub fn report<E: Event + Drop>(
    heap: Global,
    layout: Layout,
    script: Script<E>,
) -> Result<Vec<u8>, AllocError>
    ensures value { IfOk result (λ v. v.items ≡ report_of E.Event.same layout (contents_of script)) }
    ensures once { ReportedOnce E.Event.same layout (contents_of script) }
{
    write_report(heap, layout, script)
}

// All that is written for an input: that it is too long, or the report of what is read of it.
pub fn report_input<E: Event + Drop, F: FnOnce(Global, &[u8]) -> Result<Script<E>, AllocError>>(
    heap: Global,
    input: &[u8],
    layout: Layout,
    read: F,
) -> Result<Vec<u8>, AllocError>
    requires { length input.now ≤ longest_input → F.pre read heap input }
    ensures long { longest_input < length input.now → IfOk result (λ v. v.items ≡ too_long_report) }
    ensures read { length input.now ≤ longest_input → IfOk result (λ v.
        (s : _) × F.post read heap input.entry (Ok s) × (v.items ≡ report_of E.Event.same layout (contents_of s))) }
{
    if is_long(input) {
        return refuse_long(heap);
    }
    report(heap, layout, read(heap, input)?)
}
