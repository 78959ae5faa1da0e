// The changes that a book holds: their bytes in a lent area, one behind the other, in the order in which they came.
#![tactic(auto)]

ghost use Rattle.std.specs.Prelude.{◌≡◌, ◌≤◌, [], length, take, Ok};
ghost use Rattle.store.specs.Entries.{entries_from};
ghost use Rattle.store.specs.InUse.{changes_of, kept_in};

use crate::entry::Entry;

mod edits;
mod entry;
pub mod laws;
mod making;
pub mod no_room;
mod reads;

#[derive(Drop)]
pub struct Store<'a> {
    area: &'a mut [u8],
    used: usize,
    entries: Vec<Entry>,
    ghost inside: { used ≤ length area.now },
    // The bytes in use are changes, as many as there are entries, with nothing behind them.
    ghost reads: { changes_of (length entries.items) (take used area.now) ≡ Ok (kept_in (take used area.now) (length entries.items), []) },
    // The entries are those changes' own.
    ghost marked: { entries.items ≡ entries_from 0 (kept_in (take used area.now) (length entries.items)) },
}
