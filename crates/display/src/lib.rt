// What a book shows of a sheet, from what it holds: its changes as bytes, and the order of their lines.
#![tactic(auto)]

ghost use Rattle.std.specs.Prelude.{◌≡◌, IfOk};
ghost use Rattle.blocks.specs.Sheet.{shown};
ghost use Rattle.display.specs.Held.{latest, Held};

use crate::killed::{Killed, killed_lines};
use change::names::Sheet;
use lines::Lines;
use std::alloc::{AllocError, Global};
use store::Store;

mod changes;
pub mod gathered;
pub mod killed;
pub mod listing;
pub mod living;

// The sheets of a book: its changes, and their lines in order.
#[derive(Clone, Copy)]
pub struct Sheets<'a, 's> {
    pub store: &'a Store<'s>,
    pub lines: &'a Lines<'s>,
    pub ghost held: { ∥ Held store.now lines.now ∥₁ },
}

impl Sheets<'_, '_> {
    // The bytes in which a sheet is shown.
    pub fn show(&self, heap: Global, sheet: Sheet) -> Result<Vec<u8>, AllocError>
        ensures { IfOk result (λ v. v.items ≡ shown sheet.0 (latest self.now.store.now)) }
    {
        let struck_out = killed_lines(heap, self.store, sheet)?;
        let killed = Killed { lines: &struck_out };
        let living = self.living_lines(heap, sheet, &killed)?;
        sheet::show(heap, self.lines.table(), &living.lines, &living.texts)
    }
}
