// The lines of a book and their order: each line, by its number, has a slot of a table, and the layers above speak of numbers alone.
// A contract says what a call does for every list of puts that the lines keep, so that a caller needs none at hand.
#![tactic(auto)]

ghost use Rattle.std.specs.Prelude.{◌≡◌, length, slice_index_or};

use table::Table;

mod adding;
mod leaving;
mod numbers;
mod reads;
#[cfg(test)]
mod tests;

pub use crate::numbers::is_given;

#[derive(Drop)]
pub struct Lines<'a> {
    table: Table<'a>,
    // The line in each slot, by its number.
    numbers: Vec<u32>,
    ghost size: { length numbers.items ≡ table.slots },
    // The first two slots are those of the start and the end.
    ghost start: { slice_index_or numbers.items 0 0 ≡ 0 },
    ghost end: { slice_index_or numbers.items 1 0 ≡ 1 },
}
