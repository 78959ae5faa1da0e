// The changes of a book, with their lines in order: all of a book but what waits.
#![tactic(auto)]

ghost use Rattle.shelf.specs.Together.{Together};

use change::span::ADD_LIMIT;
use lines::Lines;
use store::Store;

mod admitting;
mod asking;
mod empty;
mod reads;
mod relating;
mod taking_back;

const CHANGE_LIMIT: usize = 1024;

const LINE_LIMIT: usize = 2048;

// What the changes of a book have at most: each 393 bytes, and 129 for each line.
pub const AREA_BYTES: usize = 393 * CHANGE_LIMIT + 129 * LINE_LIMIT;

// The start, the end, each line that a book may have, and those of one change more, which are put before it is known whether it comes in.
const SLOTS: usize = 2 + LINE_LIMIT + ADD_LIMIT;

#[derive(Drop)]
pub struct Shelf<'a> {
    store: Store<'a>,
    lines: Lines<'a>,
    ghost sane: { ∥ Together store lines ∥₁ },
}
