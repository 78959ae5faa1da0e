// One row of a table: the bytes of one slot, which say what it stands before.
ghost use Rattle.std.specs.Prelude.{◌≡◌, ◌+◌, ◌*◌, ◌<◌, ◌≤◌, length, false};
ghost use Rattle.table.specs.Cells.{most_slots, stride};
ghost use Rattle.table.specs.Edits.{Same, with_row};
ghost use Rattle.table.specs.Held.{held, Kept};

use crate::Table;

// The bytes of a row.
pub fn stride(slots: usize) -> usize
    requires { slots ≤ most_slots }
    ensures { result ≡ stride slots }
{
    (slots + 7) / 8
}

impl<'a> Table<'a> {
    // Where row `i` begins.
    pub(crate) fn start(&self, i: usize) -> usize
        requires { i < self.now.slots }
        ensures is { result ≡ i * stride self.now.slots }
        ensures within { result + stride self.now.slots ≤ length self.now.bits.now }
    {
        i * stride(self.slots)
    }

    // Row `to` becomes a copy of row `from`.
    pub(crate) fn copy_row(&mut self, from: usize, to: usize)
        requires source { from < self.old.slots }
        requires target { to < self.old.slots }
        ensures copied { Same (held self.new) (with_row (held self.old) to (held self.old from)) }
        ensures kept { Kept self.old self.new }
    {
        let first = self.start(from);
        let target = self.start(to);
        let end = first + stride(self.slots);
        self.bits.copy_within(first..end, target);
    }

    pub(crate) fn clear_row(&mut self, x: usize)
        requires { x < self.old.slots }
        ensures cleared { Same (held self.new) (with_row (held self.old) x (λ _. false)) }
        ensures kept { Kept self.old self.new }
    {
        let first = self.start(x);
        let end = first + stride(self.slots);
        self.bits[first..end].fill(0);
    }
}
