// The limit on an input.

ghost use Rattle.std.specs.Prelude.{◌≡◌, length, IfOk, nat_lt};
ghost use Rattle.script.specs.Answered.{longest_input, too_long_report};

use crate::refusing::refusal_text;
use events::Refusal;
use std::alloc::{AllocError, Global};

// An input has at most so many bytes.
const INPUT: usize = 32_768;

// Whether an input is too long.
pub fn is_long(input: &[u8]) -> bool
    ensures { result ≡ nat_lt longest_input (length input.now) }
{
    input.len() > INPUT
}

// What is written for an input that is too long.
pub fn refuse_long(heap: Global) -> Result<Vec<u8>, AllocError>
    ensures { IfOk result (λ v. v.items ≡ too_long_report) }
{
    Vec::from_slice(heap, &refusal_text(Refusal::LongInput, 0))
}
