// The file of a book: its records, and what opening it comes to.
#![tactic(auto)]

pub mod laws;
pub mod record;
