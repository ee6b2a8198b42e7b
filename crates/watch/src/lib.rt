// The watch: an engine and the length of its text, written once above every engine.

#![tactic(auto)]

mod calls;
mod endings;
mod follow;
mod following;
mod waiting;
mod watch;

pub use following::{Ending, Followed};
pub use watch::Watch;
