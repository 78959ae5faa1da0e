// A change that waits: its bytes, and its name, so that nothing is read again to find it.
ghost use Rattle.std.specs.Prelude.{◌≡◌, ◌==◌};
ghost use Rattle.std.specs.List.{list_any};

use change::names::Name;

#[derive(Drop)]
pub struct Item {
    pub name: Name,
    pub bytes: Vec<u8>,
}

// One of them has this name.
pub fn has(items: &[Item], name: Name) -> bool
    ensures { result ≡ list_any (λ i. i.name.0 == name.0) items.now }
{
    items.iter().any(|item| item.name == name)
}
