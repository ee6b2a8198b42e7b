// The link engine (textbook: the Aho-Corasick automaton): a table with an entry for each beginning, and
// a link from each entry to the longest shorter beginning that ends it.

#![tactic(auto)]

mod build;
mod link_engine;
mod lists;
mod queries;
mod rebuild;
mod table;
mod walk;

pub use link_engine::LinkEngine;
