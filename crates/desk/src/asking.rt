// Commands that only ask: a sheet is shown, its lines are listed, names and a letter are told.
ghost use Rattle.std.specs.Prelude.{◌≡◌, ◌++◌, OnOk, IfOk, MatchOption};
ghost use Rattle.blocks.specs.Sheet.{of_sheet, shown};
ghost use Rattle.letters.specs.Names.{names_bytes};
ghost use Rattle.outgoing.specs.NameList.{name_list};
ghost use Rattle.display.specs.declared.listing.Listing.{Listing};
ghost use Rattle.display.specs.Listing.{Lists};
ghost use Rattle.answers.specs.Lines.{hex_line, listing_lines};
ghost use Rattle.plant_books.specs.Books.{book_of};
ghost use Rattle.plant_books.specs.Sent.{LetterFor};
ghost use Rattle.desk.specs.Answering.{NoNames, SendAnswered};

use answers::{digits, listing, refused};
use change::names::Sheet;
use change::refusal::Refusal;
use console::hex::from_hex;
use plant_books::book::Book;
use plant_books::memory::LETTER_BYTES;
use plant_books::send_trouble::SendFault;
use std::alloc::{AllocError, Global};

pub fn show(
    heap: Global,
    book: &Book<'_>,
    sheet: Sheet,
    out: &mut Vec<u8>,
) -> Result<(), AllocError>
    ensures { OnOk result (out.new.items ≡ out.old.items ++ shown sheet.0 (book_of book.now).changes) }
{
    let shown = book.show(heap, sheet)?;
    out.extend_from_slice(shown.as_slice())
}

pub fn lines(
    heap: Global,
    book: &Book<'_>,
    sheet: Sheet,
    out: &mut Vec<u8>,
) -> Result<(), AllocError>
    ensures { OnOk result ((all : Listing) × Lists (of_sheet sheet.0 (book_of book.now).changes) all × (out.new.items ≡ out.old.items ++ listing_lines all)) }
{
    let all = book.lines(heap, sheet)?;
    listing(out, &all)
}

// The names that the book has, as digits.
pub fn have(heap: Global, book: &Book<'_>, out: &mut Vec<u8>) -> Result<(), AllocError>
    ensures { OnOk result (out.new.items ≡ out.old.items ++ hex_line (names_bytes (name_list (book_of book.now).changes))) }
{
    let names = book.have(heap)?;
    digits(out, names.as_slice())
}

// The letter for a book that has the names that these bytes are; none where they are no names.
pub fn letter_for(
    heap: Global,
    book: &Book<'_>,
    names: &[u8],
) -> Result<Option<Vec<u8>>, AllocError>
    ensures { IfOk result (λ o. MatchOption o (NoNames names.now) (λ v. LetterFor (book_of book.now) names.now v.items)) }
{
    let mut letter = vec![in heap; 0; LETTER_BYTES]?;
    match book.send(heap, names, letter.as_mut_slice()) {
        Ok(len) => {
            letter.truncate(len);
            Ok(Some(letter))
        }
        Err(SendFault::Refused(_)) => Ok(None),
        Err(SendFault::TooShort | SendFault::Memory) => Err(AllocError),
    }
}

// The letter for the names that are written as hexadecimal digits, as digits.
pub fn send(heap: Global, book: &Book<'_>, names: &str, out: &mut Vec<u8>) -> Result<(), AllocError>
    ensures { SendAnswered (book_of book.now) names.now out.old.items out.new.items result }
{
    let Some(names) = from_hex(heap, names)? else {
        return refused(out, Refusal::Malformed);
    };
    match letter_for(heap, book, names.as_slice())? {
        Some(letter) => digits(out, letter.as_slice()),
        None => refused(out, Refusal::Malformed),
    }
}
