// The changes that another book lacks.
ghost use Rattle.std.specs.Prelude.{◌≡◌, IfOk};
ghost use Rattle.change.specs.Few.{listed};
ghost use Rattle.letters.specs.NamesView.{names_in};
ghost use Rattle.sending.specs.Sending.{lacking as lacking_in};
ghost use Rattle.store.specs.Kept.{kept};
ghost use Rattle.verdict.specs.FromNeeds.{is_among};
ghost use Rattle.outgoing.specs.Places.{changes_at};
ghost use Rattle.outgoing.specs.Lacking.{places_of, ToldOf};

use crate::reads::{name_at, needs_at};
use change::few::Few;
use change::names::Name;
use change::view::NEED_LIMIT;
use letters::names::Names;
use std::alloc::{AllocError, Global};
use store::Store;

// A change that is lacking: its place in the store, and what its place in a letter goes by.
#[derive(Clone, Copy)]
pub struct Lacking {
    pub place: usize,
    pub name: Name,
    pub needs: Few<u32, NEED_LIMIT>,
}

impl Lacking {
    pub fn needs_name(&self, name: Name) -> bool
        ensures { result ≡ is_among name.0 (listed self.now.needs) }
    {
        self.needs.as_slice().contains(&name.0)
    }
}

// The changes whose names are not among these.
pub fn all_lacking(
    heap: Global,
    store: &Store<'_>,
    names: &Names<'_>,
) -> Result<Vec<Lacking>, AllocError>
    ensures told { IfOk result (λ v. ToldOf (kept store.now) v.items) }
    ensures are { IfOk result (λ v. changes_at (kept store.now) (places_of v.items) ≡ lacking_in (names_in names.now) (kept store.now)) }
{
    let mut lacking = Vec::new(heap);
    for place in 0..store.len() {
        let name = name_at(store, place);
        if !names.has(name) {
            lacking.push(Lacking {
                place,
                name,
                needs: needs_at(store, place),
            })?;
        }
    }
    Ok(lacking)
}
