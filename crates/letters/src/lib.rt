// Letters, and the names that a book has, as bytes.
#![tactic(auto)]

pub use message::HEAD_LEN;

pub mod change_bytes;
pub mod laws;
pub mod letter;
mod message;
pub mod names;
pub mod writing;
