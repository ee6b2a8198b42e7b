// The lines that the programs write.

ghost use Rattle.std.specs.Prelude.{◌≡◌, IsTrue, nat_le, length, decimal};
ghost use Rattle.columns.specs.Written.{number_field, entry_line, total_line, refusal_line};

// Writes a number into a field: its decimal digits at the end and blanks in front, or `*` in every
// column if the field is too narrow.
#[tactic(auto, unfolding(crate::specs::Written::number_field))]
pub fn write_number(field: &mut [u8], n: u64)
    ensures { field.new ≡ number_field (length field.old) n }
{
    if !write_digits(field, n) {
        field.fill(b'*');
    }
}

// Writes the digits into the last columns and blanks in front, and answers whether the field is wide enough:
// the last digit here, and what is left of the number into what is left of the field.
fn write_digits(field: &mut [u8], n: u64) -> bool
    ensures fits { result ≡ nat_le (length (decimal n)) (length field.old) }
    ensures written { IsTrue result → field.new ≡ number_field (length field.old) n }
{
    let Some((last, front)) = field.split_last_mut() else {
        return false;
    };
    *last = b'0' + (n % 10) as u8;
    if n < 10 {
        front.fill(b' ');
        return true;
    }
    write_digits(front, n / 10)
}

// Each kind of line has its own fields: a table of them would be no shorter than these calls.

// A sighting: place 1 to 7, blank, cue 9 to 12, blank, length 14 to 15.
pub fn entry_line(place: u64, cue: u64, len: u64) -> [u8; 16]
    ensures { result ≡ entry_line place cue len }
{
    let mut line = *b"               \n";
    write_number(&mut line[0..7], place);
    write_number(&mut line[8..12], cue);
    write_number(&mut line[13..15], len);
    line
}

// The totals: events 1 to 7, blank, sightings 9 to 15.
pub fn total_line(events: u64, sightings: u64) -> [u8; 16]
    ensures { result ≡ total_line events sightings }
{
    let mut line = *b"               \n";
    write_number(&mut line[0..7], events);
    write_number(&mut line[8..15], sightings);
    line
}

// A refusal: number 1 to 2, blank, line number 4 to 10.
pub fn refusal_line(number: u64, line: u64) -> [u8; 11]
    ensures { result ≡ refusal_line number line }
{
    let mut out = *b"          \n";
    write_number(&mut out[0..2], number);
    write_number(&mut out[3..10], line);
    out
}
