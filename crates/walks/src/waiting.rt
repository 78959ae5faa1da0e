// The items still to come, each with how many of those still to come must precede it.
ghost use Rattle.std.specs.Prelude.{◌≡◌, map, IfOk, MatchOption};
ghost use Rattle.walks.specs.Walk.{ahead_of};
ghost use Rattle.walks.specs.Waiting.{waiting_of, lowered, CanFall, NoneFree, LowestFree};

use crate::precedence::Precedence;
use std::alloc::{AllocError, Global};

#[derive(Clone, Copy)]
pub struct Waiting<T> {
    pub item: T,
    pub ahead: usize,
}

// How many of the items must precede this one.
fn count_ahead<T, P: Precedence<T>>(order: &P, items: &[T], item: &T) -> usize
    ensures { result ≡ ahead_of (P.precedes order.now) items.now item.now }
{
    items
        .iter()
        .filter(|other| order.precedes(other, item))
        .count()
}

// All the items, as they wait before the first step.
pub fn all_waiting<T: Copy, P: Precedence<T>>(
    heap: Global,
    order: &P,
    items: &[T],
) -> Result<Vec<Waiting<T>>, AllocError>
    ensures { IfOk result (λ v. v.items ≡ waiting_of (P.precedes order.now) items.now) }
{
    items
        .iter()
        .map(|item| Waiting {
            item: *item,
            ahead: count_ahead(order, items, item),
        })
        .collect(heap)
}

// The place of the item to go to next.
pub fn lowest_free<T, P: Precedence<T>>(order: &P, waiting: &[Waiting<T>]) -> Option<usize>
    ensures { MatchOption result (NoneFree waiting.now) (LowestFree (P.rank order.now) waiting.now) }
{
    waiting
        .iter()
        .enumerate()
        .filter(|(_, next)| next.ahead == 0)
        .min_by_key(|(_, next)| order.rank(&next.item))
        .map(|(place, _)| place)
}

// Lowers the counts, where this item is no longer to come.
pub fn count_down<T, P: Precedence<T>>(order: &P, waiting: &mut [Waiting<T>], item: &T)
    requires { CanFall (P.precedes order.now) item.now waiting.old }
    ensures { waiting.new ≡ map (lowered (P.precedes order.now) item.now) waiting.old }
{
    for next in waiting.iter_mut() {
        if order.precedes(item, &next.item) {
            next.ahead -= 1;
        }
    }
}
