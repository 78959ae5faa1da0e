// A store without changes.
ghost use Rattle.std.specs.Prelude.{◌≡◌, ◌≤◌, [], length, IfOk};
ghost use Rattle.store.specs.Kept.{kept};
ghost use Rattle.store.specs.Room.{most as most_in, space};

use crate::Store;
use std::alloc::{AllocError, Global};

impl<'a> Store<'a> {
    // No changes yet, and all of the area free.
    pub fn new(heap: Global, area: &'a mut [u8]) -> Store<'a>
        ensures empty { kept result ≡ [] }
        ensures area { length result.area.now ≡ length area.old }
    {
        Store {
            area,
            used: 0,
            entries: Vec::new(heap),
        }
    }

    // No changes yet, all of the area free, and room for so many changes.
    pub fn with_room(heap: Global, area: &'a mut [u8], most: usize) -> Result<Store<'a>, AllocError>
        ensures empty { IfOk result (λ s. kept s ≡ []) }
        ensures most { IfOk result (λ s. most ≤ most_in s) }
        ensures space { IfOk result (λ s. space s ≡ length area.old) }
    {
        let entries = Vec::with_capacity(heap, most)?;
        Ok(Store {
            area,
            used: 0,
            entries,
        })
    }
}
