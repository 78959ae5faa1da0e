// Looking at the changes on a shelf. A place counts from the oldest change.
ghost use Rattle.std.specs.Prelude.{◌≡◌, reverse, length};
ghost use Rattle.std.specs.List.{slice_get, list_all};
ghost use Rattle.std.specs.Option.{option_map};
ghost use Rattle.change.specs.Bytes.{change_bytes};
ghost use Rattle.change.specs.Viewed.{viewed};
ghost use Rattle.order.specs.Names.{has_name};
ghost use Rattle.verdict.specs.Verdict.{needs_here};
ghost use Rattle.shelf.specs.Sane.{changes};

use crate::Shelf;
use change::names::Name;
use change::view::ChangeView;
use lines::Lines;
use store::Store;

impl<'a> Shelf<'a> {
    // The changes, as they are kept.
    pub fn store(&self) -> &Store<'a>
        ensures { result.now ≡ self.now.store }
    {
        &self.store
    }

    // Their lines, in order.
    pub fn lines(&self) -> &Lines<'a>
        ensures { result.now ≡ self.now.lines }
    {
        &self.lines
    }

    pub fn len(&self) -> usize
        ensures { result ≡ length (changes self.now) }
    {
        self.store.len()
    }

    // The change at a place.
    pub fn get(&self, place: usize) -> Option<ChangeView<'_>>
        ensures { option_map viewed result ≡ slice_get (reverse (changes self.now)) place }
    {
        self.store.get(place)
    }

    // The bytes of the change at a place.
    pub fn bytes(&self, place: usize) -> Option<&[u8]>
        ensures { option_map (λ b. b.now) result ≡ option_map change_bytes (slice_get (reverse (changes self.now)) place) }
    {
        self.store.bytes(place)
    }

    pub fn has(&self, name: Name) -> bool
        ensures { result ≡ has_name (changes self.now) name.0 }
    {
        self.store.find(name).is_some()
    }

    fn has_all(&self, names: &[u32]) -> bool
        ensures { result ≡ list_all (has_name (changes self.now)) names.now }
    {
        names.iter().all(|name| self.has(Name(*name)))
    }

    // All that a change needs is here.
    pub fn needs_here(&self, view: &ChangeView<'_>) -> bool
        ensures { result ≡ needs_here (changes self.now) (viewed view.now) }
    {
        self.has_all(view.needs.as_slice())
    }
}
