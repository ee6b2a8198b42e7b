// The line that says why another line is refused.

ghost use Rattle.std.specs.Prelude.{◌≡◌};
ghost use Rattle.columns.specs.Written.{refusal_line};
ghost use Rattle.events.specs.Refused.{number_of};

use columns::refusal_line;
use events::Refusal;

// The refusal with the number of its line.
pub fn refusal_text(refusal: Refusal, line: usize) -> [u8; 11]
    ensures { result ≡ refusal_line (number_of refusal) line }
{
    refusal_line(u64::from(refusal.number()), line as u64)
}
