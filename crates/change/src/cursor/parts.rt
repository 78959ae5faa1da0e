// The parts of a change, read one behind the other.
ghost use Rattle.std.specs.Prelude.{◌≡◌};
ghost use Rattle.change.specs.Cursor.{lent, left};
ghost use Rattle.change.specs.Few.{listed};
ghost use Rattle.change.specs.Reading.{answered, plain, number_within, text_of, add_of, rising_of, adds_of};
ghost use Rattle.change.specs.View.{add_seen, adds_seen};

use crate::add::AddView;
use crate::cursor::Cursor;
use crate::fault::Fault;
use crate::few::Few;
use crate::names::Line;
use crate::span::ADD_LIMIT;
use crate::text::{TEXT_LIMIT, is_text};

impl<'a> Cursor<'a> {
    // A number from `low` to `high`.
    pub fn number_within(&mut self, low: u64, high: u32) -> Result<u32, Fault>
        ensures reads { answered plain result (left self.new) ≡ number_within high low (left self.old) }
        ensures same { lent self.new ≡ lent self.old }
    {
        let n = self.number()?;
        if u64::from(n) < low || n > high {
            return Err(Fault::Malformed);
        }
        Ok(n)
    }

    // A text, as a part of the lent bytes.
    pub fn text(&mut self) -> Result<&'a [u8], Fault>
        ensures reads { answered (λ text. text.now) result (left self.new) ≡ text_of (left self.old) }
        ensures same { lent self.new ≡ lent self.old }
    {
        let len = self.how_many(TEXT_LIMIT)?;
        let text = self.part(len)?;
        if !is_text(text) {
            return Err(Fault::Malformed);
        }
        Ok(text)
    }

    // An add: the two lines between which the new one goes, and its text.
    pub fn add(&mut self) -> Result<AddView<'a>, Fault>
        ensures reads { answered add_seen result (left self.new) ≡ add_of (left self.old) }
        ensures same { lent self.new ≡ lent self.old }
    {
        let after = Line(self.number()?);
        let before = Line(self.number()?);
        let text = self.text()?;
        Ok(AddView {
            after,
            before,
            text,
        })
    }

    // How many numbers, at most N, and these: from `lowest` to `highest`, each higher than the one before it.
    pub fn rising<const N: usize>(
        &mut self,
        lowest: u32,
        highest: u32,
    ) -> Result<Few<u32, N>, Fault>
        ensures reads { answered listed result (left self.new) ≡ rising_of N lowest highest (left self.old) }
        ensures same { lent self.new ≡ lent self.old }
    {
        let count = self.how_many(N)?;
        let mut numbers = Few::new(0);
        let mut low = u64::from(lowest);
        for _ in 0..count {
            let n = self.number_within(low, highest)?;
            numbers.push(n);
            low = u64::from(n) + 1;
        }
        Ok(numbers)
    }

    // How many adds, and these.
    pub fn adds(&mut self) -> Result<Few<AddView<'a>, ADD_LIMIT>, Fault>
        ensures reads { answered adds_seen result (left self.new) ≡ adds_of (left self.old) }
        ensures same { lent self.new ≡ lent self.old }
    {
        let count = self.how_many(ADD_LIMIT)?;
        let mut adds = Few::new(AddView::BLANK);
        for _ in 0..count {
            let add = self.add()?;
            adds.push(add);
        }
        Ok(adds)
    }
}
