// Commands that alter a book: bytes are taken, a change is made or taken back.
ghost use Rattle.std.specs.Prelude.{◌≡◌};
ghost use Rattle.history.specs.Taking.{is_free, take_back};
ghost use Rattle.making.specs.Making.{made};
ghost use Rattle.making.specs.Request as requests;
ghost use Rattle.drafts.specs.Asked.{asked_by};
ghost use Rattle.plant_books.specs.Books.{book_of};
ghost use Rattle.world.specs.Calls.{take_bytes};
ghost use Rattle.desk.specs.Answering.{TakeAnswered, DigitsAnswered, MakeAnswered, BackAnswered};
ghost use Rattle.desk.specs.State.{state_with};

use answers::{back as push_back, events as push_events, made_change, refused, refused_name};
use change::names::Name;
use change::refusal::Refusal;
use console::hex::from_hex;
use drafts::request::Request;
use plant_books::book::Book;
use plant_books::trouble::Trouble;
use std::alloc::{AllocError, Global};

// Takes what bytes bring, and answers what each change came to.
pub fn take(
    heap: Global,
    book: &mut Book<'_>,
    bytes: &[u8],
    out: &mut Vec<u8>,
) -> Result<(), AllocError>
    ensures { TakeAnswered (take_bytes (book_of book.old) bytes.now) (book_of book.old) (book_of book.new) out.old.items out.new.items result }
{
    match book.take(heap, bytes) {
        Ok(events) => push_events(out, events.as_slice()),
        Err(Trouble::Refused(refusal)) => refused(out, refusal),
        Err(Trouble::Memory) => Err(AllocError),
    }
}

// Takes bytes that are written as hexadecimal digits.
pub fn take_digits(
    heap: Global,
    book: &mut Book<'_>,
    digits: &str,
    out: &mut Vec<u8>,
) -> Result<(), AllocError>
    ensures { (asked : requests.Request) → DigitsAnswered digits.now (record { book = book_of book.old; request = asked }) (record { book = book_of book.new; request = asked }) out.old.items out.new.items result }
{
    match from_hex(heap, digits)? {
        Some(bytes) => take(heap, book, bytes.as_slice(), out),
        None => refused(out, Refusal::Malformed),
    }
}

// Makes a change of a request; where that is done, the request begins anew on its sheet.
pub fn make(
    heap: Global,
    book: &mut Book<'_>,
    request: &mut Request,
    out: &mut Vec<u8>,
) -> Result<(), AllocError>
    ensures { MakeAnswered (made (book_of book.old) (asked_by request.old)) (state_with book.old request.old) (state_with book.new request.new) out.old.items out.new.items result }
{
    match book.make(heap, request) {
        Ok(events) => {
            let [first, others @ ..] = events.as_slice() else {
                return Ok(());
            };
            made_change(out, first.name, request.adds())?;
            push_events(out, others)?;
            *request = Request::new(heap, request.sheet());
            Ok(())
        }
        Err(Trouble::Refused(refusal)) => refused(out, refusal),
        Err(Trouble::Memory) => Err(AllocError),
    }
}

// Takes a change back.
pub fn back(book: &mut Book<'_>, name: Name, out: &mut Vec<u8>) -> Result<(), AllocError>
    ensures book { book_of book.new ≡ take_back (book_of book.old) name.0 }
    ensures answer { BackAnswered (is_free (book_of book.old) name.0) name.0 out.old.items out.new.items result }
{
    match book.take_back(name) {
        Ok(()) => push_back(out, name),
        Err(refusal) => refused_name(out, refusal, name),
    }
}
