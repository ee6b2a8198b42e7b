// Reading a cue sheet into a book, and the report of it.

#![tactic(auto)]

mod listing;
mod report;

pub use report::sheet_report;
