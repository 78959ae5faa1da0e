// Taking a change in, and taking one out.
ghost use Rattle.std.specs.Prelude.{◌≡◌, ◌∷◌, [], ◌++◌, length, IsOk, if◌then◌else◌, nat_lt};
ghost use Rattle.std.specs.List.{remove};
ghost use Rattle.change.specs.Bytes.{change_bytes};
ghost use Rattle.change.specs.Viewed.{viewed};
ghost use Rattle.store.specs.Kept.{kept};
ghost use Rattle.store.specs.Pushed.{Pushed};
ghost use Rattle.store.specs.Room.{HasRoom, SameRoom};

use crate::entry::Entry;
use crate::no_room::NoRoom;
use crate::{Store, entry};
use change::view::ChangeView;

impl<'a> Store<'a> {
    // Takes a change in behind the others, by its bytes; where there is room for it, that is done.
    pub fn push(&mut self, view: &ChangeView<'_>) -> Result<(), NoRoom>
        ensures pushed { Pushed self.old self.new (viewed view.now) result }
        ensures in_room { HasRoom self.old (length (change_bytes (viewed view.now))) → IsOk result × SameRoom self.old self.new }
        ensures area { length self.new.area.now ≡ length self.old.area.now }
    {
        let bytes = view.bytes();
        let start = self.used;
        if bytes.len() > self.area.len() - start {
            return Err(NoRoom::Area);
        }
        entry::make_room(&mut self.entries)?;
        let end = start + bytes.len();
        self.area[start..end].copy_from_slice(bytes);
        self.entries.push_reserved(Entry {
            start,
            name: view.name,
            sheet: view.sheet,
        });
        self.used = end;
        Ok(())
    }

    // The same where there is room, so that it can't fail.
    pub fn push_in_room(&mut self, view: &ChangeView<'_>)
        requires { HasRoom self.old (length (change_bytes (viewed view.now))) }
        ensures pushed { kept self.new ≡ kept self.old ++ viewed view.now ∷ [] }
        ensures room { SameRoom self.old self.new }
    {
        self.push(view).unwrap()
    }

    // Takes the change at a place out, and closes the gap; false where there is none.
    pub fn remove(&mut self, place: usize) -> bool
        ensures answer { result ≡ nat_lt place (length (kept self.old)) }
        ensures removed { kept self.new ≡ (if result then remove (kept self.old) place else kept self.old) }
        ensures area { length self.new.area.now ≡ length self.old.area.now }
        ensures room { SameRoom self.old self.new }
    {
        if place >= self.entries.len() {
            return false;
        }
        let start = self.start(place);
        let end = self.start(place + 1);
        let size = end - start;
        let used = self.used;
        self.area.copy_within(end..used, start);
        self.used = used - size;
        self.entries.remove(place);
        entry::lower(&mut self.entries.as_mut_slice()[place..], size);
        true
    }
}
