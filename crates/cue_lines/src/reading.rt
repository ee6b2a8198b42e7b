// Reading the cue lines of an input.

ghost use Rattle.std.specs.Prelude.{◌≡◌, IfOk};
ghost use Rattle.columns.specs.Lines.{cue_says, fields_of, lines_of};
ghost use Rattle.cue_lines.specs.Reading.{numbered, read_cues, rest_of, step_of, step_of_row, values_in};

use crate::row::Row;
use columns::{AsRun, Line, Section, read_line, split_line};
use events::Refusal;
use script::Cues;
use std::alloc::AllocError;

// A line that lacks what it is to say.
const UNREADABLE: Refusal = Refusal::Unreadable { column: 0 };

// What a line is, where so many cues have begun before it.
fn row_of(cues: usize, line: &[u8]) -> Result<Row, Refusal>
    ensures { step_of_row result ≡ step_of cues line.now }
{
    match read_line(Section::Cues, line)? {
        Line::Parting => Ok(Row::Parting),
        read => numbered_row(cues, &read),
    }
}

// What a cue line is by its number.
fn numbered_row(cues: usize, line: &Line<'_>) -> Result<Row, Refusal>
    ensures { step_of_row result ≡ numbered cues (cue_says (fields_of line.now)) }
{
    let number = usize::from(line.cue_number().ok_or(UNREADABLE)?);
    let event = line.event().ok_or(UNREADABLE)?;
    if number + 1 == cues {
        Ok(Row::More(event))
    } else if number == cues {
        Ok(Row::Next(event))
    } else {
        Err(Refusal::Misnumbered)
    }
}

// Reads the lines up to the parting line, and puts their events behind these cues. It answers what
// stands behind the parting line, or why the line in its place is refused; where no line is left, that
// is as a line that is not readable.
pub fn read_cues<'a>(
    cues: &mut Cues<AsRun>,
    input: &'a [u8],
) -> Result<Result<&'a [u8], Refusal>, AllocError>
    ensures { IfOk result (λ b. (values_in cues.new, rest_of b) ≡ read_cues (values_in cues.old) (lines_of input.now)) }
{
    let mut rest = input;
    while !rest.is_empty() {
        let (line, after) = split_line(rest);
        match row_of(cues.count(), line) {
            Ok(Row::More(event)) => cues.extend(event)?,
            Ok(Row::Next(event)) => cues.begin(event)?,
            Ok(Row::Parting) => return Ok(Ok(after)),
            Err(refusal) => return Ok(Err(refusal)),
        }
        rest = after;
    }
    Ok(Err(UNREADABLE))
}
