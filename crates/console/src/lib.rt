// The lines that the programs read, and hexadecimal digits.
#![tactic(auto)]

pub mod command;
pub mod hex;
pub mod laws;
pub mod number;
pub mod parsing;
