// What became of the changes that came: a line for each event.
ghost use Rattle.std.specs.Prelude.{◌≡◌, ◌++◌, OnOk};
ghost use Rattle.std.specs.List.{flat_map};
ghost use Rattle.answers.specs.Lines.{event_line};

use crate::name_lines::word_and_name;
use crate::refused_lines::refused_name;
use history::{Event, Outcome};
use std::alloc::AllocError;

pub fn event(out: &mut Vec<u8>, event: Event) -> Result<(), AllocError>
    ensures { OnOk result (out.new.items ≡ out.old.items ++ event_line event) }
{
    match event.outcome {
        Outcome::Taken => word_and_name(out, "taken", event.name),
        Outcome::Waits => word_and_name(out, "waits", event.name),
        Outcome::Refused(refusal) => refused_name(out, refusal, event.name),
    }
}

pub fn events(out: &mut Vec<u8>, events: &[Event]) -> Result<(), AllocError>
    ensures { OnOk result (out.new.items ≡ out.old.items ++ flat_map event_line events.now) }
{
    for one in events {
        event(out, *one)?;
    }
    Ok(())
}
