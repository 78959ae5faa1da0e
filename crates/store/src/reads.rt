// Looking at the changes that a store keeps.
ghost use Rattle.std.specs.Prelude.{◌≡◌, length, drop};
ghost use Rattle.std.specs.List.{slice_get, flat_map};
ghost use Rattle.std.specs.Option.{option_map};
ghost use Rattle.change.specs.Bytes.{change_bytes};
ghost use Rattle.change.specs.Viewed.{viewed};
ghost use Rattle.store.specs.Entries.{start_of};
ghost use Rattle.store.specs.First.{FirstAt};
ghost use Rattle.store.specs.Kept.{kept, names, sheets};

use crate::{Store, entry};
use change::names::{Name, Sheet};
use change::view::ChangeView;

impl<'a> Store<'a> {
    pub fn len(&self) -> usize
        ensures { result ≡ length (kept self.now) }
    {
        self.entries.len()
    }

    // Where the bytes of the change at a place begin; past the last change, where they all end.
    pub(crate) fn start(&self, place: usize) -> usize
        ensures { result ≡ start_of (kept self.now) place }
    {
        if place < self.entries.len() {
            self.entries[place].start
        } else {
            self.used
        }
    }

    // The bytes of the change at a place.
    pub fn bytes(&self, place: usize) -> Option<&[u8]>
        ensures { option_map (λ b. b.now) result ≡ option_map change_bytes (slice_get (kept self.now) place) }
    {
        if place >= self.entries.len() {
            return None;
        }
        let start = self.start(place);
        let end = self.start(place + 1);
        Some(&self.area[start..end])
    }

    // The bytes of the changes from a place on.
    pub fn since(&self, place: usize) -> &[u8]
        ensures { result.now ≡ flat_map change_bytes (drop place (kept self.now)) }
    {
        let start = self.start(place);
        let end = self.used;
        &self.area[start..end]
    }

    // The change at a place, with its texts where they lie in the area.
    pub fn get(&self, place: usize) -> Option<ChangeView<'_>>
        ensures { option_map viewed result ≡ slice_get (kept self.now) place }
    {
        let bytes = self.bytes(place)?;
        ChangeView::read_whole(bytes).ok()
    }

    // The name of the change at a place.
    pub fn name(&self, place: usize) -> Option<Name>
        ensures { option_map (λ n. n.0) result ≡ slice_get (names self.now) place }
    {
        let entry = self.entries.get(place)?;
        Some(entry.name)
    }

    // The sheet that the change at a place is of.
    pub fn sheet(&self, place: usize) -> Option<Sheet>
        ensures { option_map (λ s. s.0) result ≡ slice_get (sheets self.now) place }
    {
        let entry = self.entries.get(place)?;
        Some(entry.sheet)
    }

    // The first place whose change has this name.
    pub fn find(&self, name: Name) -> Option<usize>
        ensures { FirstAt (names self.now) name.0 result }
    {
        entry::find(self.entries.as_slice(), name)
    }
}
