// The lines of a sheet that are struck out.
ghost use Rattle.std.specs.Prelude.{◌≡◌, ℕ, [], IfOk};
ghost use Rattle.std.specs.List.Sorted.{IsNonDecreasing};
ghost use Rattle.blocks.specs.Sheet.{of_sheet, unkilled};
ghost use Rattle.display.specs.Held.{latest};
ghost use Rattle.display.specs.Added.{spared};

use crate::changes::change_of;
use change::names::Sheet;
use std::alloc::{AllocError, Global};
use store::Store;

// Lines that are struck out, in rising order, so that looking one up takes few steps.
#[derive(Clone, Copy)]
pub struct Killed<'k> {
    pub lines: &'k [u32],
    pub ghost rising: { IsNonDecreasing lines.now },
}

impl Killed<'_> {
    // No line is struck out.
    pub fn none() -> Killed<'static>
        ensures { result.lines.now ≡ [] }
    {
        Killed { lines: &[] }
    }

    // A line is none of those struck out.
    pub fn spares(&self, line: u32) -> bool
        ensures { result ≡ spared self.now.lines.now line }
    {
        self.lines.binary_search(&line).is_err()
    }
}

// The lines that changes of the sheet strike out, in rising order.
pub fn killed_lines(heap: Global, store: &Store<'_>, sheet: Sheet) -> Result<Vec<u32>, AllocError>
    ensures rising { IfOk result (λ v. IsNonDecreasing v.items) }
    ensures spared { IfOk result (λ v. (u : ℕ) → spared v.items u ≡ unkilled (of_sheet sheet.0 (latest store.now)) u) }
{
    let mut lines = Vec::new(heap);
    for place in (0..store.len()).rev() {
        if let Some(view) = change_of(store, sheet, place) {
            lines.extend_from_slice(view.kills.as_slice())?;
        }
    }
    lines.sort_unstable();
    Ok(lines)
}
