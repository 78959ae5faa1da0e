// What a book holds: the changes that it has, with their lines in order, and those that wait for others.
ghost use Rattle.std.specs.Prelude.{◌≡◌, ◌&&◌, length, is_some, IfSome, IfOk, nat_le};
ghost use Rattle.table.specs.Slots.{fits};
ghost use Rattle.shelf.specs.Roomy.{book_bytes};
ghost use Rattle.shelf.specs.Together.{slot_count};
ghost use Rattle.history.specs.Book.{empty};
ghost use Rattle.plant_books.specs.Sane.{model_of, wait_bytes, Sane};

use change::names::Plant;
use shelf::Shelf;
use std::alloc::{AllocError, Global};
use store::Store;

pub const WAIT_LIMIT: usize = 64;

// What the changes that wait have at most, each 8,649 bytes.
pub const ROOM_BYTES: usize = WAIT_LIMIT * 8649;

#[derive(Drop)]
pub struct Contents<'a> {
    pub plant: Plant,
    // the highest count of the plant's changes that ever came in
    pub highest: u32,
    pub shelf: Shelf<'a>,
    pub waiting: Store<'a>,
}

impl<'a> Contents<'a> {
    // Nothing yet: the bytes of changes go to the area, those of changes that wait to the waiting room, and the order of lines to the bits; none where one of them is too short.
    pub fn new(
        heap: Global,
        plant: Plant,
        area: &'a mut [u8],
        room: &'a mut [u8],
        bits: &'a mut [u8],
    ) -> Result<Option<Contents<'a>>, AllocError>
        ensures answer { IfOk result (λ o. is_some o ≡ (nat_le wait_bytes (length room.old) && (nat_le book_bytes (length area.old) && fits (length bits.old) slot_count))) }
        ensures blank { IfOk result (λ o. IfSome o (λ b. Sane b × (model_of b ≡ empty plant.number))) }
    {
        if room.len() < ROOM_BYTES {
            return Ok(None);
        }
        let Some(shelf) = Shelf::with_room(heap, area, bits)? else {
            return Ok(None);
        };
        let waiting = Store::with_room(heap, room, WAIT_LIMIT)?;
        Ok(Some(Contents {
            plant,
            highest: 0,
            shelf,
            waiting,
        }))
    }
}
