// What a command does at a desk: each call hands on to the function of its name over the book and the request.
ghost use Rattle.std.specs.Prelude.{◌≡◌, ◌++◌, OnOk, IfOk, MatchOption, IsUtf8, is_ok, if◌then◌else◌};
ghost use Rattle.blocks.specs.Sheet.{of_sheet, shown};
ghost use Rattle.letters.specs.Names.{names_bytes};
ghost use Rattle.outgoing.specs.NameList.{name_list};
ghost use Rattle.display.specs.declared.listing.Listing.{Listing};
ghost use Rattle.display.specs.Listing.{Lists};
ghost use Rattle.history.specs.Taking.{is_free, take_back};
ghost use Rattle.making.specs.Making.{made};
ghost use Rattle.drafts.specs.Parts.{with_kill};
ghost use Rattle.world.specs.Calls.{take_bytes};
ghost use Rattle.console.specs.Meaning.{Meaning, meaning_of, Says};
ghost use Rattle.answers.specs.Lines.{hex_line, listing_lines};
ghost use Rattle.plant_books.specs.Books.{book_of};
ghost use Rattle.plant_books.specs.Sent.{LetterFor};
ghost use Rattle.desk.specs.Answering.{NoNames, SendAnswered, TakeAnswered, DigitsAnswered, MakeAnswered, BackAnswered, AddAnswered, SaysNothing, NoText, TurnedAway};
ghost use Rattle.desk.specs.Performing.{Performed};
ghost use Rattle.desk.specs.State.{state_of, begun};

use crate::{Desk, asking, commands, filling, taking};
use change::names::{Line, Name, Sheet};
use console::command::Command;
use drafts::request::Request;
use std::alloc::{AllocError, Global};

impl<'a> Desk<'a> {
    pub fn perform(
        &mut self,
        heap: Global,
        command: Command<'_>,
        out: &mut Vec<u8>,
    ) -> Result<(), AllocError>
        ensures { Performed (meaning_of command.entry) (state_of self.old) (state_of self.new) out.old.items out.new.items result }
    {
        commands::perform(heap, &mut self.book, &mut self.request, command, out)
    }

    // Answers a line: the command that it says is performed, and a line that says none is refused.
    pub fn answer(&mut self, heap: Global, line: &str, out: &mut Vec<u8>) -> Result<(), AllocError>
        ensures performed { (m : Meaning) → Says line.now m → Performed m (state_of self.old) (state_of self.new) out.old.items out.new.items result }
        ensures nothing { SaysNothing line.now → TurnedAway (state_of self.old) (state_of self.new) out.old.items out.new.items result }
    {
        commands::answer(heap, &mut self.book, &mut self.request, line, out)
    }

    // Answers a line by its bytes, the end of line left out; what is no text says no command.
    pub fn answer_bytes(
        &mut self,
        heap: Global,
        line: &[u8],
        out: &mut Vec<u8>,
    ) -> Result<(), AllocError>
        ensures performed { IsUtf8 line.now → (m : Meaning) → Says line.now m → Performed m (state_of self.old) (state_of self.new) out.old.items out.new.items result }
        ensures no_text { NoText line.now → TurnedAway (state_of self.old) (state_of self.new) out.old.items out.new.items result }
        ensures nothing { SaysNothing line.now → TurnedAway (state_of self.old) (state_of self.new) out.old.items out.new.items result }
    {
        commands::answer_bytes(heap, &mut self.book, &mut self.request, line, out)
    }

    // The request begins anew, on this sheet.
    pub fn begin(&mut self, heap: Global, sheet: Sheet)
        ensures { state_of self.new ≡ record { book = (state_of self.old).book; request = begun sheet.0 } }
    {
        self.request = Request::new(heap, sheet);
    }

    // A line is to be added; what is no line's text is refused.
    pub fn add(
        &mut self,
        after: Line,
        before: Line,
        text: &[u8],
        out: &mut Vec<u8>,
    ) -> Result<(), AllocError>
        ensures { AddAnswered (record { after = after.0; before = before.0; text = text.now }) (state_of self.old) (state_of self.new) out.old.items out.new.items result }
    {
        filling::add(&mut self.request, after, before, text, out)
    }

    // A line is to be struck out.
    pub fn kill(&mut self, line: Line) -> Result<(), AllocError>
        ensures { state_of self.new ≡ record { book = (state_of self.old).book; request = (if is_ok result then with_kill (state_of self.old).request line.0 else (state_of self.old).request) } }
    {
        self.request.kill(line)
    }

    pub fn show(&self, heap: Global, sheet: Sheet, out: &mut Vec<u8>) -> Result<(), AllocError>
        ensures { OnOk result (out.new.items ≡ out.old.items ++ shown sheet.0 (book_of self.now.book).changes) }
    {
        asking::show(heap, &self.book, sheet, out)
    }

    pub fn lines(&self, heap: Global, sheet: Sheet, out: &mut Vec<u8>) -> Result<(), AllocError>
        ensures { OnOk result ((all : Listing) × Lists (of_sheet sheet.0 (book_of self.now.book).changes) all × (out.new.items ≡ out.old.items ++ listing_lines all)) }
    {
        asking::lines(heap, &self.book, sheet, out)
    }

    // The names that the book has, as digits.
    pub fn have(&self, heap: Global, out: &mut Vec<u8>) -> Result<(), AllocError>
        ensures { OnOk result (out.new.items ≡ out.old.items ++ hex_line (names_bytes (name_list (book_of self.now.book).changes))) }
    {
        asking::have(heap, &self.book, out)
    }

    // The letter for a book that has the names that these bytes are; none where they are no names.
    pub fn letter_for(&self, heap: Global, names: &[u8]) -> Result<Option<Vec<u8>>, AllocError>
        ensures { IfOk result (λ o. MatchOption o (NoNames names.now) (λ v. LetterFor (book_of self.now.book) names.now v.items)) }
    {
        asking::letter_for(heap, &self.book, names)
    }

    // The letter for the names that are written as hexadecimal digits, as digits.
    pub fn send(&self, heap: Global, names: &str, out: &mut Vec<u8>) -> Result<(), AllocError>
        ensures { SendAnswered (book_of self.now.book) names.now out.old.items out.new.items result }
    {
        asking::send(heap, &self.book, names, out)
    }

    // Takes what bytes bring, and answers what each change came to.
    pub fn take(&mut self, heap: Global, bytes: &[u8], out: &mut Vec<u8>) -> Result<(), AllocError>
        ensures request { (state_of self.new).request ≡ (state_of self.old).request }
        ensures taken { TakeAnswered (take_bytes (book_of self.old.book) bytes.now) (book_of self.old.book) (book_of self.new.book) out.old.items out.new.items result }
    {
        taking::take(heap, &mut self.book, bytes, out)
    }

    // Takes bytes that are written as hexadecimal digits.
    pub fn take_digits(
        &mut self,
        heap: Global,
        digits: &str,
        out: &mut Vec<u8>,
    ) -> Result<(), AllocError>
        ensures { DigitsAnswered digits.now (state_of self.old) (state_of self.new) out.old.items out.new.items result }
    {
        taking::take_digits(heap, &mut self.book, digits, out)
    }

    // Makes a change of the request; where that is done, the request begins anew on its sheet.
    pub fn make(&mut self, heap: Global, out: &mut Vec<u8>) -> Result<(), AllocError>
        ensures { MakeAnswered (made (state_of self.old).book (state_of self.old).request) (state_of self.old) (state_of self.new) out.old.items out.new.items result }
    {
        taking::make(heap, &mut self.book, &mut self.request, out)
    }

    // Takes a change back.
    pub fn back(&mut self, name: Name, out: &mut Vec<u8>) -> Result<(), AllocError>
        ensures state { state_of self.new ≡ record { book = take_back (state_of self.old).book name.0; request = (state_of self.old).request } }
        ensures answer { BackAnswered (is_free (state_of self.old).book name.0) name.0 out.old.items out.new.items result }
    {
        taking::back(&mut self.book, name, out)
    }
}
