// Lines of a change that was taken back go, and their slots are free again.
ghost use Rattle.std.specs.Prelude.{◌≡◌, List, length};
ghost use Rattle.order.specs.Order.{Put};
ghost use Rattle.lines.specs.Puts.{Without};
ghost use Rattle.lines.specs.Lines.{numbers_of, Keeps};

use crate::Lines;
use crate::numbers::{FIRST_SLOT, NO_LINE, is_given};

impl<'a> Lines<'a> {
    // Lets so many lines go, from `first` on; the others stand as they did.
    pub fn let_go(&mut self, first: u32, count: usize)
        ensures slots { length (numbers_of self.new) ≡ length (numbers_of self.old) }
        ensures kept { (Q Q' : List Put) → Keeps self.old Q → Without Q first count Q' → Keeps self.new Q' }
    {
        for slot in FIRST_SLOT..self.numbers.len() {
            if is_given(self.numbers[slot], first, count) {
                self.table.let_go(slot);
                self.numbers[slot] = NO_LINE;
            }
        }
    }
}
