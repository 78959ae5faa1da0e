// The command that a line says.
ghost use Rattle.std.specs.Prelude.{◌++◌, codes};
ghost use Rattle.console.specs.Meaning.{Parsed};
ghost use Rattle.console.specs.Words.{Spaceless, Split};

use crate::command::Command;
use crate::number::number;
use change::names::{Line, Name, Sheet};

fn parse_sheet(rest: &str) -> Option<Command<'_>>
    ensures { Parsed (codes "sheet " ++ rest.now) result }
{
    let Ok(n) = u8::try_from(number(rest)?) else {
        return None;
    };
    Some(Command::Sheet(Sheet(n)))
}

// The word at the front, and what stands behind its space: nothing where there is none.
fn split_word(line: &str) -> (&str, &str)
    ensures spaceless { Spaceless result.0.now }
    ensures split { Split line.now result.0.now result.1.now }
{
    match line.split_once(' ') {
        Some(parts) => parts,
        None => (line, ""),
    }
}

fn parse_add(rest: &str) -> Option<Command<'_>>
    ensures { Parsed (codes "add " ++ rest.now) result }
{
    let (after, rest) = rest.split_once(' ')?;
    let (before, text) = split_word(rest);
    Some(Command::Add {
        after: Line(number(after)?),
        before: Line(number(before)?),
        text: text.as_bytes(),
    })
}

// A word with nothing behind it.
fn parse_alone<'a>(word: &str) -> Option<Command<'a>>
    requires { Spaceless word.now }
    ensures { Parsed word.now result }
{
    match word {
        "make" => Some(Command::Make),
        "have" => Some(Command::Have),
        "show" => Some(Command::Show),
        "lines" => Some(Command::Lines),
        _ => None,
    }
}

// A word with something behind its space.
fn parse_with_rest<'a>(word: &str, rest: &'a str) -> Option<Command<'a>>
    requires { Spaceless word.now }
    ensures { Parsed (word.now ++ (codes " " ++ rest.now)) result }
{
    match word {
        "sheet" => parse_sheet(rest),
        "add" => parse_add(rest),
        "kill" => Some(Command::Kill(Line(number(rest)?))),
        "back" => Some(Command::Back(Name(number(rest)?))),
        "take" => Some(Command::Take(rest)),
        "send" => Some(Command::Send(rest)),
        _ => None,
    }
}

// The command that this line says, if it says one.
pub fn parse(line: &str) -> Option<Command<'_>>
    ensures { Parsed line.now result }
{
    match line.split_once(' ') {
        Some((word, rest)) => parse_with_rest(word, rest),
        None => parse_alone(line),
    }
}
