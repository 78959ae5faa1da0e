// A shelf without changes.
ghost use Rattle.std.specs.Prelude.{◌≡◌, ◌&&◌, [], length, is_some, IfSome, IfOk, nat_le};
ghost use Rattle.table.specs.Slots.{fits};
ghost use Rattle.shelf.specs.Roomy.{book_bytes, Roomy};
ghost use Rattle.shelf.specs.Sane.{changes};
ghost use Rattle.shelf.specs.Together.{slot_count};

use crate::{AREA_BYTES, CHANGE_LIMIT, SLOTS, Shelf};
use lines::Lines;
use std::alloc::{AllocError, Global};
use store::Store;

impl<'a> Shelf<'a> {
    // No changes yet: their bytes go to the area, and the order of their lines to the bits; none where the bits are too few.
    pub fn new(
        heap: Global,
        area: &'a mut [u8],
        bits: &'a mut [u8],
    ) -> Result<Option<Shelf<'a>>, AllocError>
        ensures answer { IfOk result (λ o. is_some o ≡ fits (length bits.old) slot_count) }
        ensures empty { IfOk result (λ o. IfSome o (λ s. changes s ≡ [])) }
    {
        let Some(lines) = Lines::new(heap, bits, SLOTS)? else {
            return Ok(None);
        };
        let store = Store::new(heap, area);
        Ok(Some(Shelf { store, lines }))
    }

    // The same with room for every book, so that no change is turned away for want of memory; none where the area or the bits are too short.
    pub fn with_room(
        heap: Global,
        area: &'a mut [u8],
        bits: &'a mut [u8],
    ) -> Result<Option<Shelf<'a>>, AllocError>
        ensures answer { IfOk result (λ o. is_some o ≡ (nat_le book_bytes (length area.old) && fits (length bits.old) slot_count)) }
        ensures empty { IfOk result (λ o. IfSome o (λ s. Roomy s.store × (changes s ≡ []))) }
    {
        if area.len() < AREA_BYTES {
            return Ok(None);
        }
        let Some(lines) = Lines::new(heap, bits, SLOTS)? else {
            return Ok(None);
        };
        let store = Store::with_room(heap, area, CHANGE_LIMIT)?;
        Ok(Some(Shelf { store, lines }))
    }
}
