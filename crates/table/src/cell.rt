// One cell of a table: where its bit lies in the lent bytes, reading it and writing it.
// `get` and `put` take the bytes and the slots as values, so that a pass over many rows need not fetch them from the table in each.
ghost use Rattle.std.specs.Prelude.{◌≡◌, ◌*◌, ◌<◌, ◌≤◌};
ghost use Rattle.table.specs.Cells.{at, byte_of, most_slots, stride, Sized};
ghost use Rattle.table.specs.Edits.{Same, with_cell};
ghost use Rattle.table.specs.Held.{held, Kept};

use crate::{Table, bit, row};

// The byte that has the bit of row `i` and column `j`.
fn byte_of(slots: usize, i: usize, j: usize) -> usize
    requires most { slots ≤ most_slots }
    requires row { i < slots }
    requires column { j < slots }
    ensures is { result ≡ byte_of slots i j }
    ensures within { result < slots * stride slots }
{
    i * row::stride(slots) + j / 8
}

pub(crate) fn get(bits: &[u8], slots: usize, i: usize, j: usize) -> bool
    requires { Sized bits.now slots }
    ensures { result ≡ at bits.now slots i j }
{
    i < slots && j < slots && bit::has(bits[byte_of(slots, i, j)], j % 8)
}

pub(crate) fn put(bits: &mut [u8], slots: usize, i: usize, j: usize, on: bool)
    requires sized { Sized bits.old slots }
    requires row { i < slots }
    requires column { j < slots }
    ensures { Same (at bits.new slots) (with_cell (at bits.old slots) i j on) }
{
    let byte = byte_of(slots, i, j);
    bits[byte] = bit::with(bits[byte], j % 8, on);
}

impl<'a> Table<'a> {
    // Slot `i` stands before slot `j`.
    pub fn before(&self, i: usize, j: usize) -> bool
        ensures { result ≡ held self.now i j }
    {
        get(self.bits, self.slots, i, j)
    }

    pub(crate) fn put(&mut self, i: usize, j: usize, on: bool)
        requires row { i < self.old.slots }
        requires column { j < self.old.slots }
        ensures put { Same (held self.new) (with_cell (held self.old) i j on) }
        ensures kept { Kept self.old self.new }
    {
        put(self.bits, self.slots, i, j, on);
    }
}
