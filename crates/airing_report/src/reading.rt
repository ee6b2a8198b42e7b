// Reading the lines of an input of airings.

ghost use Rattle.std.specs.Prelude.{◌≡◌, ◌≤◌, ◌++◌, map, length, IfOk, OnOk};
ghost use Rattle.std.specs.Result.{result_err};
ghost use Rattle.columns.specs.AsRuns.{values_of};
ghost use Rattle.columns.specs.Lines.{lines_of};
ghost use Rattle.script.specs.Report.{contents_of, map_contents};
ghost use Rattle.airing_report.specs.Reading.{end_of, logged, logged_as, read_airings, text_of};

use columns::{AsRun, Section, read_line, split_line};
use cue_lines::read_cues;
use events::Refusal;
use script::{Cues, Script};
use std::alloc::{AllocError, Global};

// The event of a log line.
fn log_event(line: &[u8]) -> Result<AsRun, Refusal>
    ensures { logged_as result ≡ logged line.now }
{
    let read = read_line(Section::Log, line)?;
    read.event().ok_or(Refusal::Unreadable { column: 0 })
}

// Reads the lines of a log, and puts their events behind this text; an error says why a line is refused.
fn read_log(text: &mut Vec<AsRun>, log: &[u8]) -> Result<Result<(), Refusal>, AllocError>
    ensures text { OnOk result (map values_of text.new.items ≡ map values_of text.old.items ++ text_of (lines_of log.now)) }
    ensures end { IfOk result (λ e. result_err e ≡ end_of (lines_of log.now)) }
{
    let mut rest = log;
    while !rest.is_empty() {
        let (line, after) = split_line(rest);
        match log_event(line) {
            Ok(event) => text.push(event)?,
            Err(refusal) => return Ok(Err(refusal)),
        }
        rest = after;
    }
    Ok(Ok(()))
}

// What an input says.
pub(crate) fn read_airings(heap: Global, input: &[u8]) -> Result<Script<AsRun>, AllocError>
    requires { length input.now ≤ 32768 }
    ensures { IfOk result (λ s. map_contents values_of (contents_of s) ≡ read_airings input.now) }
{
    let mut cues = Cues::new(heap);
    let mut text = Vec::new(heap);
    match read_cues(&mut cues, input)? {
        Ok(log) => {
            let end = read_log(&mut text, log)?;
            Ok(Script {
                cues,
                stop: None,
                text,
                end: end.err(),
            })
        }
        Err(refusal) => Ok(Script {
            cues,
            stop: Some(refusal),
            text,
            end: None,
        }),
    }
}
