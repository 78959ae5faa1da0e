// Why a call came to nothing: what it was given is refused, or memory was wanting.
ghost use Rattle.std.specs.Prelude.{◌≡◌};
ghost use Rattle.change.specs.declared.refusal.Refusal.TheVariants.{Malformed};
ghost use Rattle.change.specs.declared.trouble.Trouble.TheVariants.{Refused as turned_away, Memory as no_memory};

use crate::fault::Fault;
use crate::refusal::Refusal;
use std::alloc::{AllocError, AllocFailed};

#[derive(Clone, Copy, Debug, PartialEq, Eq)]
pub enum Trouble {
    Refused(Refusal),
    Memory,
}

impl From<Refusal> for Trouble {
    ghost from_gives = { λ e r. r ≡ turned_away e };

    fn from(refusal: Refusal) -> Trouble {
        Trouble::Refused(refusal)
    }
}

// What can't be read, cut short or malformed, is refused as malformed.
impl From<Fault> for Trouble {
    ghost from_gives = { λ _ r. r ≡ turned_away Malformed };

    fn from(_fault: Fault) -> Trouble {
        Trouble::Refused(Refusal::Malformed)
    }
}

impl From<AllocError> for Trouble {
    ghost from_gives = { λ _ r. r ≡ no_memory };

    fn from(_error: AllocError) -> Trouble {
        Trouble::Memory
    }
}

impl<T: Drop> From<AllocFailed<T>> for Trouble {
    ghost from_gives = { λ _ r. r ≡ no_memory };

    fn from(_refused: AllocFailed<T>) -> Trouble {
        Trouble::Memory
    }
}
