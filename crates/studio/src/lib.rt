// The studio's part: the lane, which marks entries that share no event, and the events behind an entry.

#![tactic(auto)]

mod lane;
mod shown;

pub use lane::Lane;
pub use shown::{Shown, show};
