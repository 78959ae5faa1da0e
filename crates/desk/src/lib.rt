// What a command does to a plant's book and to what its writer is filling in, and what is answered.
#![tactic(auto)]

ghost use Rattle.std.specs.Prelude.{◌≡◌};
ghost use Rattle.desk.specs.State.{state_of, begun};
ghost use Rattle.plant_books.specs.Books.{book_of};

use change::names::Sheet;
use drafts::request::Request;
use plant_books::book::Book;
use std::alloc::Global;

pub mod asking;
pub mod commands;
mod filling;
mod methods;
pub mod taking;

const FIRST_SHEET: Sheet = Sheet(0);

// A plant's book, and what its writer is filling in.
#[derive(Drop)]
pub struct Desk<'a> {
    pub book: Book<'a>,
    pub request: Request,
}

impl<'a> Desk<'a> {
    // The writer has said nothing yet, and begins on the first sheet.
    pub fn new(heap: Global, book: Book<'a>) -> Desk<'a>
        ensures { state_of result ≡ record { book = book_of book.entry; request = begun 0 } }
    {
        Desk {
            book,
            request: Request::new(heap, FIRST_SHEET),
        }
    }
}
