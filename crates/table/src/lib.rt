// The table of who stands before whom: one bit for each pair of slots, in lent bytes.
// Slot 0 is the start of a sheet, slot 1 its end, and each other slot has a line or is free.
#![tactic(auto)]

ghost use Rattle.table.specs.Cells.{Sized};

mod bit;
mod cell;
mod column;
pub mod laws;
mod line;
mod puts;
mod row;
#[cfg(test)]
mod tests;

// The slots that a table may have at most.
pub const MOST_SLOTS: usize = 65536;

#[derive(Drop)]
pub struct Table<'a> {
    bits: &'a mut [u8],
    slots: usize,
    // The slots are not too few nor too many, and their rows fit the bytes.
    ghost sized: { Sized bits.now slots },
}
