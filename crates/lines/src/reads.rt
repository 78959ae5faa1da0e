// The lines of a book: none at first, and what is asked of them.
ghost use Rattle.std.specs.Prelude.{◌≡◌, ◌+◌, List, [], length, is_some, IfSome, IfOk, Decides};
ghost use Rattle.order.specs.Order.{Put};
ghost use Rattle.order.specs.Table.{bef};
ghost use Rattle.order.specs.Good.{On, Good};
ghost use Rattle.table.specs.Slots.{fits};
ghost use Rattle.lines.specs.Numbers.{free_in, Finds};
ghost use Rattle.lines.specs.Lines.{numbers_of, Keeps};

use crate::numbers::NO_LINE;
use crate::{Lines, numbers};
use change::names::Line;
use std::alloc::{AllocError, Global};
use table::Table;

impl<'a> Lines<'a> {
    // No lines but the start and the end, with room in so many slots; none where the table refuses the slots or the bytes.
    pub fn new(
        heap: Global,
        bits: &'a mut [u8],
        slots: usize,
    ) -> Result<Option<Lines<'a>>, AllocError>
        ensures answer { IfOk result (λ o. is_some o ≡ fits (length bits.old) slots) }
        ensures empty { IfOk result (λ o. IfSome o (λ l. Keeps l [] × (length (numbers_of l) ≡ slots))) }
    {
        let Some(table) = Table::new(bits, slots) else {
            return Ok(None);
        };
        let mut numbers = vec![in heap; NO_LINE; slots]?;
        numbers[0] = Line::START.0;
        numbers[1] = Line::END.0;
        Ok(Some(Lines { table, numbers }))
    }

    // Who stands before whom, slot by slot.
    pub fn table(&self) -> &Table<'a>
        ensures { result.now ≡ self.now.table }
    {
        &self.table
    }

    // The slot of a line.
    pub fn slot_of(&self, line: u32) -> Option<usize>
        ensures { Finds (numbers_of self.now) line result }
    {
        numbers::position(self.numbers.as_slice(), line)
    }

    pub fn has(&self, line: u32) -> bool
        ensures { (Q : List Put) → Keeps self.now Q → Decides result (On Q line) }
    {
        self.slot_of(line).is_some()
    }

    // Line `u` stands before line `v`: both are here, and in this order.
    pub fn before(&self, u: u32, v: u32) -> bool
        ensures { (Q : List Put) → Keeps self.now Q → Good Q → result ≡ bef Q u v }
    {
        let Some(i) = self.slot_of(u) else {
            return false;
        };
        let Some(j) = self.slot_of(v) else {
            return false;
        };
        self.table.before(i, j)
    }

    // How many lines more there is room for: each line has a slot of its own, and so have the start and the end.
    pub fn free(&self) -> usize
        ensures count { result ≡ free_in (numbers_of self.now) }
        ensures rest { (Q : List Put) → Keeps self.now Q → Good Q → result + (2 + length Q) ≡ length (numbers_of self.now) }
    {
        numbers::count_free(self.numbers.as_slice())
    }
}
