// The changes that wait for others (pending ones), in the order in which they came.
#![tactic(auto)]

ghost use Rattle.std.specs.Prelude.{◌≡◌, [], ◌∷◌, ◌++◌, length, is_some, if◌then◌else◌, vec_items, MatchResult};
ghost use Rattle.std.specs.List.{slice_get, remove};
ghost use Rattle.std.specs.Option.{option_map};
ghost use Rattle.order.specs.Names.{has_name};
ghost use Rattle.change.specs.Bytes.{change_bytes};
ghost use Rattle.change.specs.Viewed.{viewed};
ghost use Rattle.waiting.specs.Waiting.{waits, Whole};

use crate::item::Item;
use change::names::Name;
use change::view::ChangeView;
use std::alloc::{AllocError, Global};

mod item;

#[derive(Drop)]
pub struct Waiting {
    items: Vec<Item>,
}

impl Waiting {
    pub fn new(heap: Global) -> Waiting
        ensures none { waits result ≡ [] }
        ensures whole { Whole result }
    {
        Waiting {
            items: Vec::new(heap),
        }
    }

    pub fn len(&self) -> usize
        ensures { result ≡ length (waits self.now) }
    {
        self.items.len()
    }

    // The bytes of the change at a place.
    pub fn bytes(&self, place: usize) -> Option<&[u8]>
        requires { Whole self.now }
        ensures { option_map (λ b. b.now) result ≡ option_map change_bytes (slice_get (waits self.now) place) }
    {
        if place >= self.items.len() {
            return None;
        }
        Some(self.items[place].bytes.as_slice())
    }

    // The change at a place, with its texts where they lie in its bytes.
    pub fn get(&self, place: usize) -> Option<ChangeView<'_>>
        requires { Whole self.now }
        ensures { option_map viewed result ≡ slice_get (waits self.now) place }
    {
        let bytes = self.bytes(place)?;
        ChangeView::read_whole(bytes).ok()
    }

    // One change more, by its bytes; want of memory alters nothing.
    pub fn push(&mut self, heap: Global, view: &ChangeView<'_>) -> Result<(), AllocError>
        requires { Whole self.old }
        ensures whole { Whole self.new }
        ensures waits { MatchResult result (λ _. waits self.new ≡ waits self.old ++ viewed view.now ∷ []) (λ _. waits self.new ≡ waits self.old) }
    {
        let item = Item {
            name: view.name,
            bytes: view.to_bytes(heap)?,
        };
        self.items.push(item)?;
        Ok(())
    }

    // A change of this name waits.
    pub fn has(&self, name: Name) -> bool
        requires { Whole self.now }
        ensures { result ≡ has_name (waits self.now) name.0 }
    {
        item::has(&self.items, name)
    }

    // The change at a place waits no longer: its bytes are handed over.
    pub fn remove(&mut self, place: usize) -> Option<Vec<u8>>
        requires { Whole self.old }
        ensures whole { Whole self.new }
        ensures bytes { option_map vec_items result ≡ option_map change_bytes (slice_get (waits self.old) place) }
        ensures waits { waits self.new ≡ (if is_some result then remove (waits self.old) place else waits self.old) }
    {
        if place >= self.items.len() {
            return None;
        }
        let Item { name: _, bytes } = self.items.remove(place);
        Some(bytes)
    }
}
