// Finding a conflict of a sheet by its lines.
ghost use Rattle.std.specs.Prelude.{IfOk, MatchOption};
ghost use Rattle.lines.specs.Lines.{numbers_of};
ghost use Rattle.blocks.specs.Sheet.{of_sheet};
ghost use Rattle.display.specs.Held.{latest};
ghost use Rattle.conflicts.specs.Walks.{Walks};
ghost use Rattle.conflicts.specs.Found.{NoConflict, Found};

use crate::conflict::Conflict;
use crate::leading::ends_of;
use change::names::Sheet;
use display::Sheets;
use display::killed::{Killed, killed_lines};
use sheet::line::LineAt;
use sheet::walk::walked;
use std::alloc::{AllocError, Global};

// The living lines of a sheet, each in its slot, as they are shown.
fn shown_lines(
    heap: Global,
    sheets: &Sheets<'_, '_>,
    sheet: Sheet,
) -> Result<Vec<LineAt>, AllocError>
    ensures { IfOk result (λ v. Walks (of_sheet sheet.0 (latest sheets.now.store.now)) (numbers_of sheets.now.lines.now) v.items) }
{
    let struck_out = killed_lines(heap, sheets.store, sheet)?;
    let killed = Killed { lines: &struck_out };
    let living = sheets.living_lines(heap, sheet, &killed)?;
    let shown = walked(heap, sheets.lines.table(), &living.lines)?;
    Ok(shown)
}

// The conflict of a sheet that has exactly these lines, in whatever order; none where there is no such conflict.
pub fn find(
    heap: Global,
    sheets: &Sheets<'_, '_>,
    sheet: Sheet,
    order: &[u32],
) -> Result<Option<Conflict>, AllocError>
    ensures { IfOk result (λ o. MatchOption o (NoConflict (of_sheet sheet.0 (latest sheets.now.store.now)) order.now) (Found (of_sheet sheet.0 (latest sheets.now.store.now)) order.now)) }
{
    let shown = shown_lines(heap, sheets, sheet)?;
    let all = sheets.all_lines(heap, sheet)?;
    let Some(ends) = ends_of(sheets.lines.table(), &shown, &all.lines, order) else {
        return Ok(None);
    };
    Ok(Some(Conflict { ends, all }))
}
