// A book: the changes that it has, with their lines in order, and those that wait for others.
#![tactic(auto)]

ghost use Rattle.std.specs.Prelude.{◌≡◌, length, is_some, IfSome, IfOk};
ghost use Rattle.table.specs.Slots.{fits};
ghost use Rattle.shelf.specs.Together.{slot_count};
ghost use Rattle.history.specs.Book.{empty};
ghost use Rattle.books.specs.Sane.{model_of, Sane};

use shelf::Shelf;
use std::alloc::{AllocError, Global};
use waiting::Waiting;

mod reads;
mod settling;
mod taking_back;

#[derive(Drop)]
pub struct Book<'a> {
    plant: u8,
    // the highest count of the plant's changes that ever came in
    highest: u32,
    shelf: Shelf<'a>,
    waiting: Waiting,
}

impl<'a> Book<'a> {
    // The plant's book, with no changes yet: their bytes go to the area, and the order of their lines to the bits; none where the bits are too few.
    pub fn new(
        heap: Global,
        plant: u8,
        area: &'a mut [u8],
        bits: &'a mut [u8],
    ) -> Result<Option<Book<'a>>, AllocError>
        ensures answer { IfOk result (λ o. is_some o ≡ fits (length bits.old) slot_count) }
        ensures blank { IfOk result (λ o. IfSome o (λ b. Sane b × (model_of b ≡ empty plant))) }
    {
        let Some(shelf) = Shelf::new(heap, area, bits)? else {
            return Ok(None);
        };
        Ok(Some(Book {
            plant,
            highest: 0,
            shelf,
            waiting: Waiting::new(heap),
        }))
    }
}
