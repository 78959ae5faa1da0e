// What the programs answer, line by line.
#![tactic(auto)]

pub use event_lines::{event, events};
pub use hex_line::digits;
pub use listed_lines::listing;
pub use made_line::made_change;
pub use name_lines::{back, brought, struck};
pub use refused_lines::{refused, refused_name};

mod event_lines;
mod hex_line;
mod listed_lines;
mod made_line;
mod name_lines;
mod refused_lines;
