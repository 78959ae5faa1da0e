// Walks through items of which some must come before others: each time the one with the lowest number of those that none still to come must precede.
#![tactic(auto)]

ghost use Rattle.std.specs.Prelude.{IfOk};
ghost use Rattle.std.specs.List.{All, Contains};
ghost use Rattle.walks.specs.Walk.{IsWalk};

use crate::precedence::Precedence;
use crate::waiting::{all_waiting, count_down, lowest_free};
use std::alloc::{AllocError, Global};

pub mod precedence;
mod waiting;

// The items in the order of the walk. Where items wait for one another in a circle, it ends before them.
pub fn walked<T: Copy, P: Precedence<T>>(
    heap: Global,
    order: &P,
    items: &[T],
) -> Result<Vec<T>, AllocError>
    ensures walks { IfOk result (λ v. IsWalk (P.precedes order.now) (P.rank order.now) items.now v.items) }
    ensures among { IfOk result (λ v. All (Contains items.now) v.items) }
{
    let mut waiting = all_waiting(heap, order, items)?;
    let mut walked = Vec::new(heap);
    while let Some(place) = lowest_free(order, &waiting) {
        let item = waiting.remove(place).item;
        count_down(order, &mut waiting, &item);
        walked.push(item)?;
    }
    Ok(walked)
}
