// Showing a sheet: from the table of who stands before whom and the living lines to the bytes that are shown.
#![tactic(auto)]

ghost use Rattle.std.specs.Prelude.{◌≡◌, ℕ, Bool, true, List, IfOk};
ghost use Rattle.std.specs.List.{list_all};
ghost use Rattle.table.specs.Held.{held};
ghost use Rattle.blocks.specs.Function.{blocks_of};
ghost use Rattle.blocks.specs.Bytes.{sheet_bytes};
ghost use Rattle.sheet.specs.Lines.{numbers, line_inside, before_in, text_in, Distinct, Orders, Texts};

use crate::block::Blocks;
use crate::bytes::push_block;
pub use crate::bytes::push_text;
use crate::line::LineAt;
use crate::walk::walked;
use std::alloc::{AllocError, Global};
use table::Table;

pub mod block;
mod bytes;
pub mod line;
pub mod walk;

// The bytes in which a sheet with these living lines is shown; their texts lie in the area.
// `shown` takes the order and the texts from the lines themselves, `alike` from anything that agrees with these.
pub fn show(
    heap: Global,
    table: &Table<'_>,
    lines: &[LineAt],
    area: &[u8],
) -> Result<Vec<u8>, AllocError>
    requires distinct { Distinct (numbers lines.now) }
    requires inside { list_all (line_inside area.now) lines.now ≡ true }
    ensures shown { IfOk result (λ v. v.items ≡ sheet_bytes (text_in area.now lines.now) (blocks_of (before_in (held table.now) lines.now) (numbers lines.now))) }
    ensures alike { IfOk result (λ v. (before : ℕ → ℕ → Bool) (text : ℕ → List ℕ) → Orders (held table.now) lines.now before → Texts area.now lines.now text → v.items ≡ sheet_bytes text (blocks_of before (numbers lines.now))) }
{
    let ordered = walked(heap, table, lines)?;
    let mut out = Vec::new(heap);
    for block in Blocks::new(table, &ordered) {
        push_block(heap, &mut out, area, block.lines)?;
    }
    Ok(out)
}
