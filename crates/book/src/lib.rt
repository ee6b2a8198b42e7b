// The cue book: a draft takes cues and is sealed into a book; the sign of an event under a book.

#![tactic(auto)]

mod cue;
mod draft;
mod entry;
pub mod limits;
mod material;

pub use cue::Cue;
pub use draft::{Book, Draft};
pub use entry::Entry;
