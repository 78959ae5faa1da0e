// One column of a table: a bit of each row, which say what stands before one slot.
ghost use Rattle.std.specs.Prelude.{◌<◌, false};
ghost use Rattle.table.specs.Edits.{Same, with_column};
ghost use Rattle.table.specs.Held.{held, Kept};

use crate::{Table, cell};

impl<'a> Table<'a> {
    // Column `to` becomes a copy of column `from`.
    pub(crate) fn copy_column(&mut self, from: usize, to: usize)
        requires { to < self.old.slots }
        ensures copied { Same (held self.new) (with_column (held self.old) to (λ u. held self.old u from)) }
        ensures kept { Kept self.old self.new }
    {
        let slots = self.slots;
        let bits = &mut *self.bits;
        for i in 0..slots {
            let on = cell::get(bits, slots, i, from);
            cell::put(bits, slots, i, to, on);
        }
    }

    pub(crate) fn clear_column(&mut self, x: usize)
        requires { x < self.old.slots }
        ensures cleared { Same (held self.new) (with_column (held self.old) x (λ _. false)) }
        ensures kept { Kept self.old self.new }
    {
        let slots = self.slots;
        let bits = &mut *self.bits;
        for i in 0..slots {
            cell::put(bits, slots, i, x, false);
        }
    }
}
