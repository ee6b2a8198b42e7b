// The functions of `bench_api` as C and Rust call them: a slice goes as a pointer and then a length. A book
// goes as its cues one behind the other and the length of each.

#![tactic(auto)]

use bench_api::Number;
pub use bench_api::Tally as Answer;
use std::alloc::Global;

// The link engine alone: one step for each sign, and the sightings after each.
#[unsafe(no_mangle)]
pub extern "C" fn bench_step(heap: Global, cues: &[Number], lens: &[u16], signs: &[u16]) -> Answer {
    bench_api::bench_step(heap, cues, lens, signs)
}

// The watch above the link engine: all events followed.
#[unsafe(no_mangle)]
pub extern "C" fn bench_follow(
    heap: Global,
    cues: &[Number],
    lens: &[u16],
    text: &[Number],
) -> Answer {
    bench_api::bench_follow(heap, cues, lens, text)
}

// Writes the signs of the events under the book, for `bench_step`, as far as there is room. The answer is
// a status, since C has no Result.
#[unsafe(no_mangle)]
pub extern "C" fn bench_signs(
    heap: Global,
    cues: &[Number],
    lens: &[u16],
    text: &[Number],
    signs: &mut [u16],
) -> u64 {
    bench_api::bench_signs(heap, cues, lens, text, signs)
}
