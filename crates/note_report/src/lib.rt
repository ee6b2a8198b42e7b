// The report of notes: where words stand in a text.

#![tactic(auto)]

mod notes;
mod reading;

pub use notes::notes_report;
