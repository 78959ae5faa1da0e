// Seats where nobody sits yet, each with a book in memory of its own.
ghost use Rattle.std.specs.Prelude.{◌≡◌, All, IfOk, IfSome, length, vec_len};
ghost use Rattle.rehearse.specs.Seats.{Unused};

use crate::seats::Seat;
use desk::Desk;
use plant_books::book::Book;
use plant_books::memory::Memory;
use std::alloc::{AllocError, Global};

// The plant of each book until a line of the script names one for it.
const NOBODY_YET: u8 = 0;

// A free seat, whose book is lent this memory; none where that is too little.
fn seat_in<'a>(heap: Global, memory: &'a mut Memory) -> Result<Option<Seat<'a>>, AllocError>
    ensures { IfOk result (λ o. IfSome o (λ s. Unused s)) }
{
    let Some(book) = Book::new(
        heap,
        NOBODY_YET,
        &mut memory.area,
        &mut memory.room,
        &mut memory.bits,
    )?
    else {
        return Ok(None);
    };
    Ok(Some(Seat {
        plant: None,
        desk: Desk::new(heap, book),
    }))
}

// A free seat in each of these.
pub fn seats_in<'a>(
    heap: Global,
    memories: &'a mut [Memory],
) -> Result<Option<Vec<Seat<'a>>>, AllocError>
    ensures { IfOk result (λ o. IfSome o (λ seats. All Unused seats.items)) }
{
    let mut seats = Vec::new(heap);
    let each = memories.iter_mut();
    for memory in each {
        let Some(seat) = seat_in(heap, memory)? else {
            return Ok(None);
        };
        seats.push(seat)?;
    }
    Ok(Some(seats))
}
