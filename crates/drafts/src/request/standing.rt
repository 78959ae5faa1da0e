// Whether the adds of a request go between lines that stand in order, where these are known.
ghost use Rattle.std.specs.Prelude.{◌≡◌, ℕ, Bool, take, ◌==◌};
ghost use Rattle.std.specs.List.{list_all, enumerate_from};
ghost use Rattle.change.specs.Model.{line_of};
ghost use Rattle.order.specs.Table.{step, bef, onto, placed};
ghost use Rattle.drafts.specs.PutsOf.{puts_of};
ghost use Rattle.shelf.specs.Sane.{changes};
ghost use Rattle.drafts.specs.Asked.{asked_by};
ghost use Rattle.drafts.specs.Named.{is_ordered_among};
ghost use Rattle.drafts.specs.Puts.{put_at, answer_in, goes_behind};

use crate::request::Request;
use crate::request::knowing::place_in;
use crate::request::upcoming::Upcoming;
use change::names::{Line, Name};
use change::span::AddAt;
use std::ops::ControlFlow;

// The line is that of the add at this place of the change of this name.
fn is_line_at(name: Name, place: usize, line: Line) -> bool
    ensures { result ≡ (line.0 == line_of name.0 place) }
{
    place_in(name, line).is_some_and(|own| own == place as u64)
}

// Asks of the order without an add's put what is asked of the order with it: the answer, or which two lines are left to ask of.
fn ask_without(
    name: Name,
    place: usize,
    add: AddAt,
    u: Line,
    v: Line,
) -> ControlFlow<bool, (Line, Line)>
    ensures { (R : ℕ → ℕ → Bool) → answer_in R result ≡ step R (put_at name.0 place add) u.0 v.0 }
{
    match (is_line_at(name, place, u), is_line_at(name, place, v)) {
        (true, true) => ControlFlow::Break(false),
        (true, false) if v == add.before => ControlFlow::Break(true),
        (true, false) => ControlFlow::Continue((add.before, v)),
        (false, true) if u == add.after => ControlFlow::Break(true),
        (false, true) => ControlFlow::Continue((u, add.after)),
        (false, false) => ControlFlow::Continue((u, v)),
    }
}

impl Upcoming<'_, '_> {
    // A line stands before another, with the puts of these first adds on top of the book's.
    fn stands_before(&self, adds: &[AddAt], u: Line, v: Line) -> bool
        ensures { result ≡ bef (onto (placed (changes self.now.shelf.now)) (puts_of (line_of self.now.name.0 0) adds.now)) u.0 v.0 }
    {
        let mut asked = (u, v);
        for (place, add) in adds.iter().enumerate().rev() {
            match ask_without(self.name, place, *add, asked.0, asked.1) {
                ControlFlow::Break(answer) => return answer,
                ControlFlow::Continue(left) => asked = left,
            }
        }
        self.shelf.stands_before(asked.0, asked.1)
    }

    // Where the add behind these may name both of its lines, they stand in order.
    fn goes_behind(&self, earlier: &[AddAt], add: AddAt) -> bool
        ensures { result ≡ goes_behind (changes self.now.shelf.now) self.now.name.0 earlier.now add }
    {
        !self.may_name_both(earlier.len(), add)
            || self.stands_before(earlier, add.after, add.before)
    }

    // Each add whose lines are known goes between two that stand in this order, with those before it put in.
    fn are_in_order(&self, adds: &[AddAt]) -> bool
        ensures { result ≡ list_all (λ p. goes_behind (changes self.now.shelf.now) self.now.name.0 (take p.0 adds.now) p.1) (enumerate_from 0 adds.now) }
    {
        adds.iter()
            .enumerate()
            .all(|(place, add)| self.goes_behind(&adds[..place], *add))
    }
}

impl Request {
    // The adds whose lines are known go between lines that stand in order.
    pub fn is_in_order(&self, upcoming: &Upcoming<'_, '_>) -> bool
        ensures { result ≡ is_ordered_among (changes upcoming.now.shelf.now) upcoming.now.name.0 (asked_by self.now) }
    {
        upcoming.are_in_order(&self.adds)
    }
}
