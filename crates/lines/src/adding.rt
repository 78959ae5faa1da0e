// The lines of a change come: they are put into free slots, which alters nothing for the lines that are here, and may be refused; then the slots are marked.
ghost use Rattle.std.specs.Prelude.{◌≡◌, ◌+◌, ◌^◌, ◌<◌, ◌≤◌, List, length, drop, is_some, IfSome};
ghost use Rattle.change.specs.Few.{listed};
ghost use Rattle.order.specs.Order.{Put};
ghost use Rattle.order.specs.Table.{onto};
ghost use Rattle.order.specs.Good.{Good};
ghost use Rattle.lines.specs.Numbers.{no_line, free_in, AreFree, AllBefore, Chosen, Finds, marked};
ghost use Rattle.lines.specs.Puts.{puts_of, in_order};
ghost use Rattle.lines.specs.Lines.{numbers_of, Keeps, Prepared, MayAdd, Unmoved};
ghost use Rattle.lines.specs.Adding.{NextPut};

use crate::numbers::{FIRST_SLOT, is_given};
use crate::{Lines, numbers};
use change::add::AddView;
use change::few::Few;
use change::span::ADD_LIMIT;

// The slot of a line, where the chosen slots are for the lines `first`, `first + 1` and so on.
fn slot_among(numbers: &[u32], first: u32, chosen: &[usize], line: u32) -> Option<usize>
    requires chosen { Chosen numbers.now chosen.now }
    requires above { no_line < first }
    ensures { Finds (marked numbers.now first chosen.now) line result }
{
    if is_given(line, first, chosen.len()) {
        return Some(chosen[(line - first) as usize]);
    }
    numbers::position(numbers, line)
}

impl<'a> Lines<'a> {
    // Puts the next of the new lines into a free slot between the lines of its add; none where these don't stand in this order.
    fn put_next(
        &mut self,
        first: u32,
        chosen: &[usize],
        from: usize,
        add: &AddView<'_>,
    ) -> Option<usize>
        requires above { no_line < first }
        requires chosen { Chosen (numbers_of self.old) chosen.now }
        requires behind { (2 ≤ from) × AllBefore chosen.now from }
        requires room { 0 < free_in (drop from (numbers_of self.old)) }
        ensures unmoved { Unmoved self.old self.new }
        ensures put { NextPut self.old self.new first chosen.now from (record { line = first + length chosen.now; after = add.now.after.0; before = add.now.before.0 }) result }
    {
        let numbers = self.numbers.as_slice();
        let a = slot_among(numbers, first, chosen, add.after.0)?;
        let b = slot_among(numbers, first, chosen, add.before.0)?;
        let slot = numbers::next_free(numbers, from);
        if !self.table.between(slot, a, b) {
            return None;
        }
        Some(slot)
    }

    // Puts the lines `first`, `first + 1` and so on into free slots, each between the two lines of its add, and answers with the slots.
    // None where two such lines do not stand in this order. The lines that were here stand as they did either way.
    pub fn prepare(&mut self, first: u32, adds: &[AddView<'_>]) -> Option<Few<usize, ADD_LIMIT>>
        requires above { no_line < first }
        requires few { length adds.now ≤ 64 }
        requires room { length adds.now ≤ free_in (numbers_of self.old) }
        ensures unmoved { Unmoved self.old self.new }
        ensures kept { (Q : List Put) → Keeps self.old Q → Keeps self.new Q }
        ensures answer { (Q : List Put) → MayAdd self.old first (length adds.now) Q → is_some result ≡ in_order Q (puts_of first adds.now) }
        ensures free { IfSome result (λ slots. (length (listed slots) ≡ length adds.now) × AreFree (numbers_of self.new) (listed slots)) }
        ensures prepared { IfSome result (λ slots. (Q : List Put) → MayAdd self.old first (length adds.now) Q → Good (onto Q (puts_of first adds.now)) × Prepared self.new first (listed slots) (onto Q (puts_of first adds.now))) }
    {
        let mut slots = Few::new(0);
        let mut from = FIRST_SLOT;
        for add in adds {
            let slot = self.put_next(first, slots.as_slice(), from, add)?;
            slots.push(slot);
            from = slot + 1;
        }
        Some(slots)
    }

    // Gives the slots to the lines `first`, `first + 1` and so on, as they were prepared.
    pub fn commit(&mut self, first: u32, slots: &[usize])
        requires free { AreFree (numbers_of self.old) slots.now }
        requires fits { first + length slots.now ≤ 2 ^ 32 }
        ensures slots { length (numbers_of self.new) ≡ length (numbers_of self.old) }
        ensures kept { (Q : List Put) → Prepared self.old first slots.now Q → Keeps self.new Q }
    {
        numbers::mark(self.numbers.as_mut_slice(), first, slots);
    }
}
