// What the programs that run vectors share: the frames that their input consists of, and the numbers in
// the words of a line.

#![tactic(auto)]

mod answers;
mod frame;
mod io_answers;
mod words;

pub use answers::answer_frames_anyhow;
pub use frame::{Frame, Frames};
pub use io_answers::answer_frames;
pub use words::number_in;
