// Books: what a plant holds, and what it takes, makes and takes back.
#![tactic(auto)]

mod assigning;
pub mod book;
mod contents;
pub mod memory;
mod own_changes;
mod reads;
mod receiving;
pub mod send_trouble;
mod settling;
mod showing;
mod taking;
mod taking_back;
mod telling;
pub mod trouble;
