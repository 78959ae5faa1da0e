// What a writer asks for, and the change that it comes to.
#![tactic(auto)]

pub mod request;
mod rising;
