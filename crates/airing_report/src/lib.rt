// The report of airings: which cues were on air, by the lines of an input.

#![tactic(auto)]

mod airings;
mod reading;

pub use airings::airings_report;
