// Why nothing was sent.
ghost use Rattle.std.specs.Prelude.{◌≡◌};
ghost use Rattle.outgoing.specs.declared.trouble.SendTrouble.TheVariants.{Memory as no_memory};

use std::alloc::AllocError;

#[derive(Clone, Copy, Debug, PartialEq, Eq)]
pub enum SendTrouble {
    // The letter is longer than the slice that it was to go into.
    TooShort,
    // There is no memory to put the changes in order.
    Memory,
}

impl From<AllocError> for SendTrouble {
    ghost from_gives = { λ _ r. r ≡ no_memory };

    fn from(_error: AllocError) -> SendTrouble {
        SendTrouble::Memory
    }
}
