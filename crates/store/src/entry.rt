// Where the bytes of a change begin, with what is asked of it most, so that nothing is read again for it.
ghost use Rattle.std.specs.Prelude.{◌≡◌, ◌<◌, true, map, nat_le, vec_len, vec_capacity, IsOk, OnOk, ◌==◌};
ghost use Rattle.std.specs.List.{list_all, position};
ghost use Rattle.store.specs.Entries.{lowered};

use change::names::{Name, Sheet};
use std::alloc::AllocError;

#[derive(Clone, Copy)]
pub struct Entry {
    pub start: usize,
    pub name: Name,
    pub sheet: Sheet,
}

// Makes room for one entry more; a list that has room keeps just that.
pub fn make_room(entries: &mut Vec<Entry>) -> Result<(), AllocError>
    ensures items { entries.new.items ≡ entries.old.items }
    ensures room { OnOk result (vec_len entries.new < vec_capacity entries.new) }
    ensures in_room { vec_len entries.old < vec_capacity entries.old → IsOk result × (vec_capacity entries.new ≡ vec_capacity entries.old) }
{
    if entries.len() < entries.capacity() {
        return Ok(());
    }
    entries.reserve(1)
}

// The first entry of this name.
pub fn find(entries: &[Entry], name: Name) -> Option<usize>
    ensures { result ≡ position (λ e. e.name.0 == name.0) entries.now }
{
    entries.iter().position(|entry| entry.name == name)
}

// Each entry begins `by` bytes earlier.
pub fn lower(entries: &mut [Entry], by: usize)
    requires { list_all (λ e. nat_le by e.start) entries.old ≡ true }
    ensures { entries.new ≡ map (lowered by) entries.old }
{
    for entry in entries.iter_mut() {
        entry.start -= by;
    }
}
