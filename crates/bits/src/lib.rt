// The bit engine (textbook: Shift-And, also bitap): one bit for each front of each cue, in one word.

#![tactic(auto)]

mod masks;
mod shift_and;
mod word;

pub use shift_and::BitEngine;
