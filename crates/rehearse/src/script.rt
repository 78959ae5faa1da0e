// The lines of a script: a plant's number and a command for its book, or two plants between which changes are passed on.
ghost use Rattle.std.specs.Prelude.{◌≢◌, ◌++◌, codes};
ghost use Rattle.console.specs.Words.{Spaceless};
ghost use Rattle.rehearse.specs.Lines.{Read};

use change::names::Plant;
use console::command::Command;
use console::number::plant;
use console::parsing::parse;

#[derive(Clone, Copy)]
pub enum ScriptLine<'a> {
    Tell(Plant, Command<'a>),
    Pass(Plant, Plant),
}

fn read_pass<'a>(rest: &str) -> Option<ScriptLine<'a>>
    ensures { Read (codes "pass " ++ rest.now) result }
{
    let (first, second) = rest.split_once(' ')?;
    let from = plant(first)?;
    let to = plant(second)?;
    Some(ScriptLine::Pass(from, to))
}

fn read_tell<'a>(word: &str, rest: &'a str) -> Option<ScriptLine<'a>>
    requires word { Spaceless word.now }
    requires other { word.now ≢ codes "pass" }
    ensures { Read (word.now ++ (codes " " ++ rest.now)) result }
{
    let of = plant(word)?;
    let command = parse(rest)?;
    Some(ScriptLine::Tell(of, command))
}

// What a line of a script says, if it says something.
pub fn read(line: &str) -> Option<ScriptLine<'_>>
    ensures { Read line.now result }
{
    let (word, rest) = line.split_once(' ')?;
    match word {
        "pass" => read_pass(rest),
        _ => read_tell(word, rest),
    }
}
