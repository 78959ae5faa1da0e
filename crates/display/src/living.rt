// The lines of a sheet that are added and not struck out.
ghost use Rattle.std.specs.Prelude.{ℕ, List, [], ◌++◌, IfOk, OnOk};
ghost use Rattle.std.specs.List.{flat_map};
ghost use Rattle.change.specs.Membership.{In};
ghost use Rattle.change.specs.Viewed.{viewed};
ghost use Rattle.lines.specs.Lines.{numbers_of};
ghost use Rattle.blocks.specs.Sheet.{of_sheet};
ghost use Rattle.display.specs.Added.{added_by, sparing};
ghost use Rattle.display.specs.Gathered.{HasSlot, Gives};
ghost use Rattle.display.specs.Held.{latest};

use crate::Sheets;
use crate::changes::change_of;
use crate::gathered::Gathered;
use crate::killed::Killed;
use change::names::Sheet;
use change::view::ChangeView;
use lines::Lines;
use std::alloc::{AllocError, Global};

// Adds the lines of a change that are not struck out.
fn push_change(
    living: &mut Gathered,
    lines: &Lines<'_>,
    killed: &Killed<'_>,
    view: &ChangeView<'_>,
) -> Result<(), AllocError>
    requires { (p : ℕ × List ℕ) → In p (added_by (viewed view.now)) → HasSlot (numbers_of lines.now) p.0 }
    ensures { OnOk result ((ps : List (ℕ × List ℕ)) → Gives (numbers_of lines.now) living.old ps → Gives (numbers_of lines.now) living.new (ps ++ sparing killed.now.lines.now (added_by (viewed view.now)))) }
{
    for place in 0..view.adds.as_slice().len() {
        let line = view.name.line(place).0;
        if killed.spares(line) {
            let slot = lines.slot_of(line).unwrap();
            let text = view.text(place).unwrap();
            living.push(line, slot, text)?;
        }
    }
    Ok(())
}

impl Sheets<'_, '_> {
    // All lines of a sheet, the latest change first.
    pub fn all_lines(&self, heap: Global, sheet: Sheet) -> Result<Gathered, AllocError>
        ensures { IfOk result (λ g. Gives (numbers_of self.now.lines.now) g (sparing [] (flat_map added_by (of_sheet sheet.0 (latest self.now.store.now))))) }
    {
        self.living_lines(heap, sheet, &Killed::none())
    }

    // The lines of a sheet but for those struck out, the latest change first.
    pub fn living_lines(
        &self,
        heap: Global,
        sheet: Sheet,
        killed: &Killed<'_>,
    ) -> Result<Gathered, AllocError>
        ensures { IfOk result (λ g. Gives (numbers_of self.now.lines.now) g (sparing killed.now.lines.now (flat_map added_by (of_sheet sheet.0 (latest self.now.store.now))))) }
    {
        let mut living = Gathered::new(heap);
        for place in (0..self.store.len()).rev() {
            if let Some(view) = change_of(self.store, sheet, place) {
                push_change(&mut living, self.lines, killed, &view)?;
            }
        }
        Ok(living)
    }
}
