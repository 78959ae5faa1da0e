// A command, performed on a plant's book and on what its writer is filling in.
ghost use Rattle.std.specs.Prelude.{IsUtf8};
ghost use Rattle.console.specs.Meaning.{Meaning, meaning_of, Says};
ghost use Rattle.desk.specs.Answering.{SaysNothing, NoText, TurnedAway};
ghost use Rattle.desk.specs.Performing.{Performed};
ghost use Rattle.desk.specs.State.{state_with};

use crate::asking::{have, lines, send, show};
use crate::filling::add;
use crate::taking::{back, make, take_digits};
use answers::refused;
use change::refusal::Refusal;
use console::command::Command;
use console::parsing::parse;
use drafts::request::Request;
use plant_books::book::Book;
use std::alloc::{AllocError, Global};

pub fn perform(
    heap: Global,
    book: &mut Book<'_>,
    request: &mut Request,
    command: Command<'_>,
    out: &mut Vec<u8>,
) -> Result<(), AllocError>
    ensures { Performed (meaning_of command.entry) (state_with book.old request.old) (state_with book.new request.new) out.old.items out.new.items result }
{
    match command {
        Command::Sheet(sheet) => {
            *request = Request::new(heap, sheet);
            Ok(())
        }
        Command::Add {
            after,
            before,
            text,
        } => add(request, after, before, text, out),
        Command::Kill(line) => request.kill(line),
        Command::Make => make(heap, book, request, out),
        Command::Back(name) => back(book, name, out),
        Command::Take(digits) => take_digits(heap, book, digits, out),
        Command::Have => have(heap, book, out),
        Command::Send(names) => send(heap, book, names, out),
        Command::Show => show(heap, book, request.sheet(), out),
        Command::Lines => lines(heap, book, request.sheet(), out),
    }
}

// Answers a line: the command that it says is performed, and a line that says none is refused.
pub fn answer(
    heap: Global,
    book: &mut Book<'_>,
    request: &mut Request,
    line: &str,
    out: &mut Vec<u8>,
) -> Result<(), AllocError>
    ensures performed { (m : Meaning) → Says line.now m → Performed m (state_with book.old request.old) (state_with book.new request.new) out.old.items out.new.items result }
    ensures nothing { SaysNothing line.now → TurnedAway (state_with book.old request.old) (state_with book.new request.new) out.old.items out.new.items result }
{
    match parse(line) {
        Some(command) => perform(heap, book, request, command, out),
        None => refused(out, Refusal::Malformed),
    }
}

// Answers a line by its bytes, the end of line left out; what is no text says no command.
pub fn answer_bytes(
    heap: Global,
    book: &mut Book<'_>,
    request: &mut Request,
    line: &[u8],
    out: &mut Vec<u8>,
) -> Result<(), AllocError>
    ensures performed { IsUtf8 line.now → (m : Meaning) → Says line.now m → Performed m (state_with book.old request.old) (state_with book.new request.new) out.old.items out.new.items result }
    ensures no_text { NoText line.now → TurnedAway (state_with book.old request.old) (state_with book.new request.new) out.old.items out.new.items result }
    ensures nothing { SaysNothing line.now → TurnedAway (state_with book.old request.old) (state_with book.new request.new) out.old.items out.new.items result }
{
    match str::from_utf8(line) {
        Ok(line) => answer(heap, book, request, line, out),
        Err(_) => refused(out, Refusal::Malformed),
    }
}
