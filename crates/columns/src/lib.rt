// The fixed columns of the input and output lines: what a line is read as, and how a line is written.

#![tactic(auto)]

mod asrun;
mod field;
mod kind;
mod line;
mod write;

pub use asrun::AsRun;
pub use field::read_number;
pub use kind::{Kind, UnknownLetter};
pub use line::{Line, Section, read_line, split_line};
pub use write::{entry_line, refusal_line, total_line, write_number};
