// The memory that a book is lent: for the bytes of its changes, for those of the changes that wait, and for the order of its lines.
ghost use Rattle.std.specs.Prelude.{◌≡◌, IfOk, vec_len};

pub use crate::contents::ROOM_BYTES;
pub use shelf::AREA_BYTES;
use std::alloc::{AllocError, Global};

// A bit for each two of 2,114 slots, in rows of whole bytes.
pub const BITS_BYTES: usize = 560_210;

// A letter of all changes of a book: its mark and their count, and their bytes.
pub const LETTER_BYTES: usize = 3 + AREA_BYTES;

#[derive(Drop)]
pub struct Memory {
    pub area: Vec<u8>,
    pub room: Vec<u8>,
    pub bits: Vec<u8>,
}

impl Memory {
    pub fn new(heap: Global) -> Result<Memory, AllocError>
        ensures area { IfOk result (λ m. vec_len m.area ≡ AREA_BYTES) }
        ensures room { IfOk result (λ m. vec_len m.room ≡ ROOM_BYTES) }
        ensures bits { IfOk result (λ m. vec_len m.bits ≡ BITS_BYTES) }
    {
        Ok(Memory {
            area: vec![in heap; 0; AREA_BYTES]?,
            room: vec![in heap; 0; ROOM_BYTES]?,
            bits: vec![in heap; 0; BITS_BYTES]?,
        })
    }
}
