// What can be asked of a book. None of it asks for anything: what can't be done is refused.
ghost use Rattle.std.specs.Prelude.{◌≡◌, ◌&&◌, reverse, length, drop, is_some, IfSome, IfOk, if◌then◌else◌, nat_le, nat_lt};
ghost use Rattle.std.specs.List.{flat_map};
ghost use Rattle.change.specs.Bytes.{change_bytes};
ghost use Rattle.blocks.specs.Sheet.{of_sheet, shown};
ghost use Rattle.display.specs.Listing.{Lists};
ghost use Rattle.table.specs.Slots.{fits};
ghost use Rattle.shelf.specs.Roomy.{book_bytes};
ghost use Rattle.shelf.specs.Together.{slot_count};
ghost use Rattle.history.specs.Book.{empty};
ghost use Rattle.history.specs.Taking.{is_free, take_back};
ghost use Rattle.world.specs.Calls.{take_bytes};
ghost use Rattle.letters.specs.Names.{names_bytes};
ghost use Rattle.outgoing.specs.NameList.{name_list};
ghost use Rattle.making.specs.Making.{made};
ghost use Rattle.drafts.specs.Asked.{asked_by};
ghost use Rattle.plant_books.specs.Answers.{Answered, freed};
ghost use Rattle.plant_books.specs.Blank.{is_blank};
ghost use Rattle.plant_books.specs.Books.{book_of};
ghost use Rattle.plant_books.specs.Named.{MadeAs};
ghost use Rattle.plant_books.specs.Sane.{wait_bytes};
ghost use Rattle.plant_books.specs.Sent.{SentFor};

use crate::book::Book;
use crate::contents::Contents;
use crate::send_trouble::SendFault;
use crate::trouble::Trouble;
use change::names::{Name, Plant, Sheet};
use change::refusal::Refusal;
use display::listing::Listing;
use drafts::request::Request;
use history::Event;
use std::alloc::{AllocError, Global};

impl<'a> Book<'a> {
    // The plant's book, without changes. The bytes of changes go to the area, those of changes that wait to the waiting room, and the order of lines to the bits; none where one of them is too short, or there is no such plant.
    pub fn new(
        heap: Global,
        plant: u8,
        area: &'a mut [u8],
        room: &'a mut [u8],
        bits: &'a mut [u8],
    ) -> Result<Option<Book<'a>>, AllocError>
        ensures answer { IfOk result (λ o. is_some o ≡ (nat_lt plant 16 && (nat_le wait_bytes (length room.old) && (nat_le book_bytes (length area.old) && fits (length bits.old) slot_count)))) }
        ensures blank { IfOk result (λ o. IfSome o (λ b. book_of b ≡ empty plant)) }
    {
        let Some(plant) = Plant::new(plant) else {
            return Ok(None);
        };
        let Some(contents) = Contents::new(heap, plant, area, room, bits)? else {
            return Ok(None);
        };
        Ok(Some(Book { contents }))
    }

    // Gives the book to another plant; false, and nothing is altered, where something came already or there is no such plant.
    pub fn assign(&mut self, plant: u8) -> bool
        ensures answer { result ≡ (nat_lt plant 16 && is_blank (book_of self.old)) }
        ensures book { book_of self.new ≡ (if result then empty plant else book_of self.old) }
    {
        match Plant::new(plant) {
            Some(plant) => self.contents.assign(plant),
            None => false,
        }
    }

    // Takes what bytes bring, a letter or one change: the events are what each change came to, and what those that had waited came to then.
    pub fn take(&mut self, heap: Global, bytes: &[u8]) -> Result<Vec<Event>, Trouble>
        ensures { Answered (take_bytes (book_of self.old) bytes.now) (book_of self.old) (book_of self.new) result }
    {
        self.contents.take_bytes(heap, bytes)
    }

    // Makes a change of a request, with the plant's next name: refused, or the events, its own first.
    pub fn make(&mut self, heap: Global, request: &Request) -> Result<Vec<Event>, Trouble>
        ensures named { IfOk result (λ events. MadeAs (book_of self.old) (asked_by request.now) events.items) }
        ensures made { Answered (made (book_of self.old) (asked_by request.now)) (book_of self.old) (book_of self.new) result }
    {
        self.contents.make(heap, request)
    }

    // Takes the change of this name back; refused as needed, and nothing is altered, where it isn't in the book or another there needs it.
    pub fn take_back(&mut self, name: Name) -> Result<(), Refusal>
        ensures answer { result ≡ freed (is_free (book_of self.old) name.0) }
        ensures rest { book_of self.new ≡ take_back (book_of self.old) name.0 }
    {
        self.contents.take_back(name)
    }

    // The bytes in which a sheet is shown.
    pub fn show(&self, heap: Global, sheet: Sheet) -> Result<Vec<u8>, AllocError>
        ensures { IfOk result (λ v. v.items ≡ shown sheet.0 (book_of self.now).changes) }
    {
        self.contents.show(heap, sheet)
    }

    // All lines of a sheet by rising number, with whether each lives, and its text.
    pub fn lines(&self, heap: Global, sheet: Sheet) -> Result<Listing, AllocError>
        ensures { IfOk result (λ g. Lists (of_sheet sheet.0 (book_of self.now).changes) g) }
    {
        self.contents.lines(heap, sheet)
    }

    // How many changes it has.
    pub fn len(&self) -> usize
        ensures { result ≡ length (book_of self.now).changes }
    {
        self.contents.shelf.len()
    }

    // The bytes of the changes that came after so many, oldest first, as a part of the lent area.
    pub fn since(&self, place: usize) -> &[u8]
        ensures { result.now ≡ flat_map change_bytes (drop place (reverse (book_of self.now).changes)) }
    {
        self.contents.shelf.store().since(place)
    }

    // The names that it has, as bytes.
    pub fn have(&self, heap: Global) -> Result<Vec<u8>, AllocError>
        ensures { IfOk result (λ v. v.items ≡ names_bytes (name_list (book_of self.now).changes)) }
    {
        self.contents.have(heap)
    }

    // Writes the letter for a book that has the names that these bytes are; its length.
    pub fn send(&self, heap: Global, names: &[u8], out: &mut [u8]) -> Result<usize, SendFault>
        ensures { SentFor (book_of self.now) names.now out.old out.new result }
    {
        self.contents.send(heap, names, out)
    }
}
