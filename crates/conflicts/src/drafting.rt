// The requests that settle a conflict: each strikes out a piece of its lines, and puts their texts in its place.
ghost use Rattle.std.specs.Prelude.{◌≡◌, ◌+◌, ◌*◌, ◌≤◌, map, length, IfOk, nat_le};
ghost use Rattle.change.specs.Membership.{Within};
ghost use Rattle.change.specs.WellFormed.{highest_name};
ghost use Rattle.drafts.specs.Asked.{asked_by};
ghost use Rattle.settling.specs.Requests.{request, requests, in_pieces, piece_limit};
ghost use Rattle.conflicts.specs.Drafting.{numbers_in, text_of_line};

use crate::conflict::Conflict;
use change::names::{Line, Name, Sheet};
use drafts::request::Request;
use std::alloc::{AllocError, Global};

// As many lines as a change can strike out that names two more, since it may need 32 changes.
const PIECE_LIMIT: usize = 30;

// A plant's names are this far apart.
const NAME_STEP: u32 = 16;

// What strikes out the lines of a piece, and puts their texts one behind the other, the first behind the line `after`, by a change of this name.
fn request_piece(
    heap: Global,
    conflict: &Conflict,
    sheet: Sheet,
    after: Line,
    name: Name,
    piece: &[u32],
) -> Result<Request, AllocError>
    requires known { Within piece.now (numbers_in conflict.now) }
    requires short { length piece.now ≤ piece_limit }
    requires named { name.0 ≤ highest_name }
    ensures { IfOk result (λ r. asked_by r ≡ request (text_of_line conflict.now) conflict.now.ends.before.0 after.0 name.0 piece.now sheet.0) }
{
    let mut request = Request::new(heap, sheet);
    let mut last = after;
    for (place, line) in piece.iter().enumerate() {
        let text = conflict.text(*line).unwrap();
        request.add_line(last, conflict.ends.before, text)?;
        request.kill(Line(*line))?;
        last = name.line(place);
    }
    Ok(request)
}

// There are names for all pieces of `order`, where the first gets the name `next`.
pub fn has_names(next: Name, order: &[u32]) -> bool
    ensures { result ≡ nat_le (next.0 + length (in_pieces order.now) * 16) (highest_name + 16) }
{
    let pieces = order.len().div_ceil(PIECE_LIMIT);
    next.0 as usize + pieces * NAME_STEP as usize <= (Name::HIGHEST.0 + NAME_STEP) as usize
}

// The requests for all pieces of `order`, where the first is made under this name and each other under the next.
pub fn request_all(
    heap: Global,
    conflict: &Conflict,
    sheet: Sheet,
    next: Name,
    order: &[u32],
) -> Result<Vec<Request>, AllocError>
    requires known { Within order.now (numbers_in conflict.now) }
    requires named { next.0 + length (in_pieces order.now) * 16 ≤ highest_name + 16 }
    ensures { IfOk result (λ v. map asked_by v.items ≡ requests (text_of_line conflict.now) conflict.now.ends.before.0 conflict.now.ends.after.0 next.0 (in_pieces order.now) sheet.0) }
{
    let mut requests = Vec::new(heap);
    let mut after = conflict.ends.after;
    let mut name = next;
    for piece in order.chunks(PIECE_LIMIT) {
        let request = request_piece(heap, conflict, sheet, after, name, piece)?;
        requests.push(request)?;
        after = name.line(piece.len() - 1);
        name = Name(name.0 + NAME_STEP);
    }
    Ok(requests)
}
