// Why a change was not taken in.
ghost use Rattle.std.specs.Prelude.{◌≡◌};
ghost use Rattle.store.specs.declared.no_room.NoRoom.TheVariants.{Memory as no_memory};

use std::alloc::AllocError;

#[derive(Clone, Copy, Debug, PartialEq, Eq)]
pub enum NoRoom {
    // The bytes of the area that are free are fewer than the change's.
    Area,
    // There is no memory for its entry.
    Memory,
}

impl From<AllocError> for NoRoom {
    ghost from_gives = { λ _ r. r ≡ no_memory };

    fn from(_error: AllocError) -> NoRoom {
        NoRoom::Memory
    }
}
