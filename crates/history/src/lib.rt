// What taking a change comes to, and the theory of a book's history.
#![tactic(auto)]

use change::names::Name;
use change::refusal::Refusal;

pub mod laws;

#[derive(Clone, Copy)]
pub enum Outcome {
    // It is in the book now (applied).
    Taken,
    // It waits for a change that it needs (pending).
    Waits,
    // It is turned away.
    Refused(Refusal),
}

// What a change came to: the one that was handed over, or one that had waited for it.
#[derive(Clone, Copy)]
pub struct Event {
    pub name: Name,
    pub outcome: Outcome,
}
