// Working out what settles a conflict of a sheet in the order that a person gives.
#![tactic(auto)]

ghost use Rattle.std.specs.Prelude.{map, IfOk, MatchOption};
ghost use Rattle.drafts.specs.Asked.{asked_by};
ghost use Rattle.display.specs.Held.{latest};
ghost use Rattle.conflicts.specs.Settles.{NotSettled, Settles};

use crate::drafting::{has_names, request_all};
use crate::finding::find;
use change::names::{Name, Sheet};
use display::Sheets;
use drafts::request::Request;
use std::alloc::{AllocError, Global};

mod block;
pub mod conflict;
pub mod drafting;
pub mod finding;
pub mod leading;

// The requests that settle the conflict of a sheet which has exactly the lines of `order`, in this order: each is to be made before the next, the first under the name `next`.
// None where there is no such conflict, or where the plant has not names enough.
pub fn settle(
    heap: Global,
    sheets: &Sheets<'_, '_>,
    sheet: Sheet,
    next: Name,
    order: &[u32],
) -> Result<Option<Vec<Request>>, AllocError>
    ensures { IfOk result (λ o. MatchOption o (NotSettled (latest sheets.now.store.now) sheet.0 next.0 order.now) (λ v. Settles (latest sheets.now.store.now) sheet.0 next.0 order.now (map asked_by v.items))) }
{
    let Some(conflict) = find(heap, sheets, sheet, order)? else {
        return Ok(None);
    };
    if !has_names(next, order) {
        return Ok(None);
    }
    let requests = request_all(heap, &conflict, sheet, next, order)?;
    Ok(Some(requests))
}
