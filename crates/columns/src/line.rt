// Lines of the input: where one ends, and what it is read as.

ghost use Rattle.std.specs.Prelude.{◌≡◌, ◌+◌, ◌<◌, ◌≤◌, ◌∷◌, true, false, length, drop, IfOk, MatchResult, Some, None};
ghost use Rattle.events.specs.declared.Refusal.TheVariants.{Unreadable};
ghost use Rattle.std.specs.Option.{option_map};
ghost use Rattle.columns.specs.AsRuns.{values_of};
ghost use Rattle.columns.specs.Fields.{number_below};
ghost use Rattle.columns.specs.Lines.{first_line, lines_of, ended, seen, read_line, bad_column, carts, columns, event_from, event_of, cue_number_of, blank_field, Whole, LineWritten, AreFields, fields_of};

use crate::asrun::{AsRun, CARTS, SECONDS};
use crate::field::read_number;
use crate::kind::read_kind;
use events::Refusal;

// One more than the greatest number that a field may hold.
const CUE_NUMBERS: u32 = 10_000;

// The part of the input that a line stands in.
#[derive(Clone, Copy, PartialEq, Eq, Debug)]
pub enum Section {
    // up to the parting line
    Cues,
    // behind it
    Log,
}

// A line by its fields. A cue line and a log line differ in what stands first, and each case names it.
#[derive(Clone, Copy, PartialEq, Eq, Debug)]
pub enum Line<'a> {
    Cue {
        number: &'a [u8],
        kind: &'a [u8],
        cart: &'a [u8],
    },
    Log {
        second: &'a [u8],
        kind: &'a [u8],
        cart: &'a [u8],
    },
    Parting,
}

impl Line<'_> {
    // The event of a cue line, with second 0, or of a log line.
    pub fn event(&self) -> Option<AsRun>
        ensures { option_map values_of result ≡ event_of (fields_of self.now) }
    {
        match *self {
            Line::Cue { kind, cart, .. } => event_at(0, kind, cart),
            Line::Log { second, kind, cart } => event_at(read_number(second, SECONDS)?, kind, cart),
            Line::Parting => None,
        }
    }

    // The number of a cue line.
    pub fn cue_number(&self) -> Option<u16>
        ensures { result ≡ cue_number_of (fields_of self.now) }
    {
        match *self {
            Line::Cue { number, .. } => {
                let n = read_number(number, CUE_NUMBERS)?;
                Some(n as u16)
            }
            _ => None,
        }
    }
}

// The event that began in this second, by its other two fields.
fn event_at(second: u32, kind: &[u8], cart: &[u8]) -> Option<AsRun>
    requires { second < SECONDS }
    ensures { option_map values_of result ≡ event_from (Some second) kind.now (number_below carts cart.now) }
{
    let cart = read_number(cart, CARTS)?;
    let kind = read_kind(kind)?;
    Some(AsRun::new(second, kind, cart))
}

// The first line, with its byte 10, and the rest of the input.
pub fn split_line(input: &[u8]) -> (&[u8], &[u8])
    ensures front { result.0.now ≡ first_line input.now }
    ensures back { result.1.now ≡ drop (length (first_line input.now)) input.now }
    ensures lines { 0 < length input.now → lines_of input.now ≡ result.0.now ∷ lines_of result.1.now }
    ensures shorter { 0 < length input.now → length result.1.now < length input.now }
{
    input.split_at(line_length(input))
}

// How many bytes the first line has.
fn line_length(input: &[u8]) -> usize
    ensures { result ≡ length (first_line input.now) }
{
    input
        .iter()
        .position(|b| *b == b'\n')
        .map_or(input.len(), |i| i + 1)
}

// What a line of this section is read as. A refusal has column 0 for a wrong length, else the first
// column of the leftmost bad field.
#[tactic(auto, using(crate::proofs::Texts::line_written))]
pub fn read_line<'a>(section: Section, line: &'a [u8]) -> Result<Line<'a>, Refusal>
    ensures value { seen result ≡ read_line section line.now }
    ensures events { IfOk result (λ l. Whole (fields_of l)) }
    ensures written { LineWritten section line.now }
{
    match section {
        Section::Cues if is_ended(line, 0) => Ok(Line::Parting),
        Section::Cues => {
            let (number, kind, cart) = read_fields(line, 4, CUE_NUMBERS)?;
            Ok(Line::Cue { number, kind, cart })
        }
        Section::Log => {
            let (second, kind, cart) = read_fields(line, 5, SECONDS)?;
            Ok(Line::Log { second, kind, cart })
        }
    }
}

// The number, kind and cart of a line that has, from its first column on, a number below the limit in this
// many columns, a blank, a kind, a blank and a cart in six columns, and byte 10 behind them.
fn read_fields<'a>(
    line: &'a [u8],
    width: u8,
    limit: u32,
) -> Result<(&'a [u8], &'a [u8], &'a [u8]), Refusal>
    requires { width < 10 }
    ensures { MatchResult result (λ f. (bad_column width limit line.now ≡ None) × AreFields width line.now f.0.now f.1.now f.2.now) (λ e. option_map Unreadable (bad_column width limit line.now) ≡ Some e) }
{
    let at = usize::from(width);
    if !is_ended(line, at + 9) {
        return Err(Refusal::Unreadable { column: 0 });
    }
    let number = columns(line, 1, at);
    let kind = columns(line, at + 2, at + 2);
    let cart = columns(line, at + 4, at + 9);
    good_or(read_number(number, limit).is_some(), 1)?;
    good_or(is_blank(columns(line, at + 1, at + 1)), width + 1)?;
    good_or(read_kind(kind).is_some(), width + 2)?;
    good_or(is_blank(columns(line, at + 3, at + 3)), width + 3)?;
    good_or(read_number(cart, CARTS).is_some(), width + 4)?;
    Ok((number, kind, cart))
}

// Columns a to b, counted from 1.
fn columns(line: &[u8], a: usize, b: usize) -> &[u8]
    requires first { 0 < a }
    requires forward { a ≤ b + 1 }
    requires within { b ≤ length line.now }
    ensures { result.now ≡ columns a b line.now }
{
    &line[a - 1..b]
}

// A refusal at the first column of a field, where the field is bad.
fn good_or(is_good: bool, column: u8) -> Result<(), Refusal>
    ensures { MatchResult result (λ _. is_good ≡ true) (λ e. (is_good ≡ false) × (e ≡ Unreadable column)) }
{
    is_good.then_some(()).ok_or(Refusal::Unreadable { column })
}

// Whether the line has this many columns and byte 10 behind them.
fn is_ended(line: &[u8], columns: usize) -> bool
    requires { columns < 100 }
    ensures { result ≡ ended columns line.now }
{
    line.len() == columns + 1 && line.ends_with(b"\n")
}

fn is_blank(field: &[u8]) -> bool
    ensures { result ≡ blank_field field.now }
{
    matches!(field, [b' '])
}
