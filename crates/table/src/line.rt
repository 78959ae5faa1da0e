// One line of a table: the row and the column of its slot together.
ghost use Rattle.std.specs.Prelude.{◌≡◌, ◌<◌, ◌≢◌};
ghost use Rattle.order.specs.Table.{step, cleared};
ghost use Rattle.table.specs.Edits.{Same};
ghost use Rattle.table.specs.Held.{held, Kept};
ghost use Rattle.table.specs.Puts.{put_of};

use crate::Table;

impl<'a> Table<'a> {
    // Slot `x` stands before `b` and what `b` stands before, and behind `a` and what stands before `a`.
    pub(crate) fn put_line(&mut self, x: usize, a: usize, b: usize)
        requires target { x < self.old.slots }
        requires first { a < self.old.slots }
        requires second { b < self.old.slots }
        requires apart { (x ≢ a) × (x ≢ b) }
        ensures put { Same (held self.new) (step (held self.old) (put_of x a b)) }
        ensures kept { Kept self.old self.new }
    {
        self.copy_row(b, x);
        self.put(x, b, true);
        self.copy_column(a, x);
        self.put(a, x, true);
        self.put(x, x, false);
    }

    pub(crate) fn clear_line(&mut self, x: usize)
        requires { x < self.old.slots }
        ensures cleared { Same (held self.new) (cleared (held self.old) x) }
        ensures kept { Kept self.old self.new }
    {
        self.clear_row(x);
        self.clear_column(x);
    }
}
