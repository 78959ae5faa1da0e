// A change is taken back, with its lines.
ghost use Rattle.std.specs.Prelude.{◌≡◌, if◌then◌else◌};
ghost use Rattle.order.specs.Theorems.{without};
ghost use Rattle.store.specs.Kept.{kept};
ghost use Rattle.shelf.specs.Roomy.{Roomy};
ghost use Rattle.shelf.specs.Sane.{changes};
ghost use Rattle.shelf.specs.TakingBack.{needs_at, none_needs, is_free_in};

use crate::Shelf;
use change::names::Name;
use change::span::ADD_LIMIT;

impl<'a> Shelf<'a> {
    // The change at a place needs the one of this name.
    fn needs_at(&self, place: usize, name: Name) -> bool
        ensures { result ≡ needs_at (kept self.now.store) name.0 place }
    {
        let Some(view) = self.store.get(place) else {
            return false;
        };
        view.needs.as_slice().contains(&name.0)
    }

    // No change here needs the one of this name.
    fn none_needs(&self, name: Name) -> bool
        ensures { result ≡ none_needs (changes self.now) name.0 }
    {
        (0..self.store.len()).all(|place| !self.needs_at(place, name))
    }

    // Takes the change of this name back; false, and nothing is altered, where there is none or another needs it.
    pub fn take_back(&mut self, name: Name) -> bool
        ensures answer { result ≡ is_free_in (changes self.old) name.0 }
        ensures roomy { Roomy self.old.store → Roomy self.new.store }
        ensures rest { changes self.new ≡ (if result then without name.0 (changes self.old) else changes self.old) }
    {
        let Some(place) = self.store.find(name) else {
            return false;
        };
        if !self.none_needs(name) {
            return false;
        }
        self.store.remove(place);
        self.lines.let_go(name.line(0).0, ADD_LIMIT);
        true
    }
}
