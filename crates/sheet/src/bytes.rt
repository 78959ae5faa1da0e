// The bytes of a block: a line alone as its text; of more, each as its number and its text, between marks.
ghost use Rattle.std.specs.Prelude.{◌≡◌, ℕ, true, List, ◌++◌, OnOk};
ghost use Rattle.std.specs.List.{flat_map, list_all};
ghost use Rattle.change.specs.View.{inside};
ghost use Rattle.blocks.specs.Bytes.{block_bytes};
ghost use Rattle.sheet.specs.Lines.{numbers, line_inside, Texts};
ghost use Rattle.sheet.specs.Shown.{text_line, numbered_line, marked};

use crate::line::LineAt;
use change::span::Span;
use std::alloc::{AllocError, Global};

// A text as a line.
pub fn push_text(out: &mut Vec<u8>, area: &[u8], text: Span) -> Result<(), AllocError>
    requires { inside area.now text ≡ true }
    ensures { OnOk result (out.new.items ≡ out.old.items ++ text_line area.now text) }
{
    let start = text.start;
    let end = start + text.len;
    out.extend_from_slice(&area[start..end])?;
    out.push(b'\n')?;
    Ok(())
}

fn push_numbered(
    heap: Global,
    out: &mut Vec<u8>,
    area: &[u8],
    line: LineAt,
) -> Result<(), AllocError>
    requires { line_inside area.now line ≡ true }
    ensures { OnOk result (out.new.items ≡ out.old.items ++ numbered_line area.now line) }
{
    let number = line.number.0;
    let label = format!(in heap; "{number} ")?;
    out.extend_from_slice(label.as_bytes())?;
    push_text(out, area, line.text)?;
    Ok(())
}

// The lines of a conflict, between its marks.
fn push_marked(
    heap: Global,
    out: &mut Vec<u8>,
    area: &[u8],
    lines: &[LineAt],
) -> Result<(), AllocError>
    requires { list_all (line_inside area.now) lines.now ≡ true }
    ensures { OnOk result (out.new.items ≡ out.old.items ++ marked (flat_map (numbered_line area.now) lines.now)) }
{
    out.extend_from_slice(b"<<\n")?;
    for line in lines {
        push_numbered(heap, out, area, *line)?;
    }
    out.extend_from_slice(b">>\n")?;
    Ok(())
}

pub fn push_block(
    heap: Global,
    out: &mut Vec<u8>,
    area: &[u8],
    block: &[LineAt],
) -> Result<(), AllocError>
    requires { list_all (line_inside area.now) block.now ≡ true }
    ensures { OnOk result ((text : ℕ → List ℕ) → Texts area.now block.now text → out.new.items ≡ out.old.items ++ block_bytes text (numbers block.now)) }
{
    match block {
        [] => Ok(()),
        [line] => push_text(out, area, line.text),
        _ => push_marked(heap, out, area, block),
    }
}
