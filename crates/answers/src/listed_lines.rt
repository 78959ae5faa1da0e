// The lines of a sheet: number, alive or dead, and text.
ghost use Rattle.std.specs.Prelude.{◌≡◌, ◌++◌, All, OnOk};
ghost use Rattle.std.specs.List.{flat_map};
ghost use Rattle.answers.specs.Lines.{state_of, listed_line, listing_lines, TextInside};

use display::listing::{ListedLine, Listing};
use sheet::push_text;
use std::alloc::AllocError;

fn state(alive: bool) -> &'static str
    ensures { result.now ≡ state_of alive }
{
    if alive { "alive" } else { "dead" }
}

fn listed_line(out: &mut Vec<u8>, texts: &[u8], line: ListedLine) -> Result<(), AllocError>
    requires { TextInside texts.now line }
    ensures { OnOk result (out.new.items ≡ out.old.items ++ listed_line texts.now line) }
{
    let number = line.number.0;
    let state = state(line.alive);
    let label = format!(in *out.allocator(); "{number} {state} ")?;
    out.extend_from_slice(label.as_bytes())?;
    push_text(out, texts, line.text)?;
    Ok(())
}

fn each_line(out: &mut Vec<u8>, texts: &[u8], lines: &[ListedLine]) -> Result<(), AllocError>
    requires { All (TextInside texts.now) lines.now }
    ensures { OnOk result (out.new.items ≡ out.old.items ++ flat_map (listed_line texts.now) lines.now) }
{
    for line in lines {
        listed_line(out, texts, *line)?;
    }
    Ok(())
}

pub fn listing(out: &mut Vec<u8>, listing: &Listing) -> Result<(), AllocError>
    requires { All (TextInside listing.now.texts.items) listing.now.lines.items }
    ensures { OnOk result (out.new.items ≡ out.old.items ++ listing_lines listing.now) }
{
    each_line(out, &listing.texts, &listing.lines)
}
