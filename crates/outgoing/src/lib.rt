// What a book sends to another, and the names of the changes that it has.
#![tactic(auto)]

pub mod have;
mod lacking;
pub mod laws;
mod reads;
pub mod send;
pub mod trouble;
mod walk;
mod writing;
