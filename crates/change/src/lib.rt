// Changes and their bytes.
#![tactic(auto)]

pub mod add;
pub mod cursor;
#[cfg(test)]
mod example;
pub mod fault;
pub mod few;
pub mod kind;
pub mod laws;
pub mod names;
pub mod refusal;
pub mod span;
pub mod text;
pub mod trouble;
pub mod view;
mod writing;
