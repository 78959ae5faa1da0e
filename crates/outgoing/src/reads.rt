// What a store has at a place that is in use.
ghost use Rattle.std.specs.Prelude.{◌≡◌, ◌<◌, length};
ghost use Rattle.change.specs.Bytes.{change_bytes};
ghost use Rattle.change.specs.Few.{listed};
ghost use Rattle.store.specs.Kept.{kept};
ghost use Rattle.outgoing.specs.Places.{change_at, name_at};

use change::few::Few;
use change::names::Name;
use change::view::NEED_LIMIT;
use store::Store;

pub fn name_at(store: &Store<'_>, place: usize) -> Name
    requires { place < length (kept store.now) }
    ensures { result.0 ≡ name_at (kept store.now) place }
{
    store.name(place).unwrap()
}

pub fn needs_at(store: &Store<'_>, place: usize) -> Few<u32, NEED_LIMIT>
    requires { place < length (kept store.now) }
    ensures { listed result ≡ (change_at (kept store.now) place).needs }
{
    store.get(place).unwrap().needs
}

pub fn bytes_at<'s>(store: &'s Store<'_>, place: usize) -> &'s [u8]
    requires { place < length (kept store.now) }
    ensures { result.now ≡ change_bytes (change_at (kept store.now) place) }
{
    store.bytes(place).unwrap()
}
