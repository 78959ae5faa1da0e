// What is asked of a table: to take the line of a slot in, and to let it go.
ghost use Rattle.std.specs.Prelude.{◌≡◌, true, false, List, [], ◌∷◌, length, is_some, IfSome};
ghost use Rattle.order.specs.Order.{Put};
ghost use Rattle.order.specs.Table.{step, cleared};
ghost use Rattle.order.specs.Good.{NoneNames, dropped};
ghost use Rattle.table.specs.Edits.{Same};
ghost use Rattle.table.specs.Held.{held, Holds, Kept};
ghost use Rattle.table.specs.Puts.{put_of};
ghost use Rattle.table.specs.Slots.{fits, may_put, may_let_go};

use crate::{MOST_SLOTS, Table, row};

impl<'a> Table<'a> {
    // The table of a sheet with no lines; none where the slots are too few or too many, or the bytes too few.
    pub fn new(bits: &'a mut [u8], slots: usize) -> Option<Table<'a>>
        ensures answer { is_some result ≡ fits (length bits.old) slots }
        ensures kept { IfSome result (λ t. (t.slots ≡ slots) × (length t.bits.now ≡ length bits.old)) }
        ensures empty { IfSome result (λ t. Holds t []) }
    {
        if slots < 2 || slots > MOST_SLOTS || bits.len() < slots * row::stride(slots) {
            return None;
        }
        bits.fill(0);
        let mut table = Table { bits, slots };
        table.put(0, 1, true);
        Some(table)
    }

    // The slot is one that a line may have.
    fn is_for_lines(&self, x: usize) -> bool
        ensures { result ≡ may_let_go self.now.slots x }
    {
        (2..self.slots).contains(&x)
    }

    // Puts the line of slot `x` between those of `a` and `b`, or refuses and alters nothing.
    pub fn between(&mut self, x: usize, a: usize, b: usize) -> bool
        ensures kept { Kept self.old self.new }
        ensures answer { result ≡ may_put (held self.old) self.old.slots x a b }
        ensures refused { result ≡ false → self.new.bits.now ≡ self.old.bits.now }
        ensures stepped { result ≡ true → Same (held self.new) (step (held self.old) (put_of x a b)) }
        ensures ordered { result ≡ true → (Q : List Put) → Holds self.old Q → Holds self.new (put_of x a b ∷ Q) }
    {
        if !self.is_for_lines(x) || x == a || x == b || !self.before(a, b) {
            return false;
        }
        self.put_line(x, a, b);
        true
    }

    // Takes the line of slot `x` out, or refuses and alters nothing.
    pub fn let_go(&mut self, x: usize) -> bool
        ensures kept { Kept self.old self.new }
        ensures answer { result ≡ may_let_go self.old.slots x }
        ensures refused { result ≡ false → self.new.bits.now ≡ self.old.bits.now }
        ensures gone { result ≡ true → Same (held self.new) (cleared (held self.old) x) }
        ensures ordered { result ≡ true → (Q : List Put) → NoneNames x Q → Holds self.old Q → Holds self.new (dropped x Q) }
    {
        if !self.is_for_lines(x) {
            return false;
        }
        self.clear_line(x);
        true
    }
}
