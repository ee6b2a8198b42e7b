// A report of nothing but a refusal.

ghost use Rattle.std.specs.Prelude.{◌≡◌, IfOk};
ghost use Rattle.events.specs.Refused.{number_of};
ghost use Rattle.columns.specs.Written.{refusal_line};

use events::Refusal;
use script::refusal_text;
use std::alloc::{AllocError, Global};

// The refusal with the number of its line, alone.
pub(crate) fn refuse(heap: Global, refusal: Refusal, line: usize) -> Result<Vec<u8>, AllocError>
    ensures { IfOk result (λ v. v.items ≡ refusal_line (number_of refusal) line) }
{
    Vec::from_slice(heap, &refusal_text(refusal, line))
}
