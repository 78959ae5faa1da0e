// The walk through the changes to be sent: each time the one with the lowest name of those that need none still to come.
ghost use Rattle.std.specs.Prelude.{◌≡◌, List, IfOk};
ghost use Rattle.change.specs.Few.{listed};
ghost use Rattle.change.specs.Membership.{Within};
ghost use Rattle.change.specs.Model.{Change};
ghost use Rattle.history.specs.Sane.{Distinct};
ghost use Rattle.sending.specs.Sending.{walk_all};
ghost use Rattle.verdict.specs.FromNeeds.{is_among};
ghost use Rattle.outgoing.specs.Places.{changes_at};
ghost use Rattle.outgoing.specs.Lacking.{places_of, ToldOf};

use crate::lacking::Lacking;
use std::alloc::{AllocError, Global};
use walks::precedence::Precedence;

// Changes go after those of the others that they need, and by their names.
#[derive(Clone, Copy)]
struct ByNeeds;

impl<'l> Precedence<&'l Lacking> for ByNeeds {
    ghost precedes = { λ _ one other. is_among one.now.name.0 (listed other.now.needs) };

    ghost rank = { λ _ change. change.now.name.0 };

    fn precedes(&self, one: &&'l Lacking, other: &&'l Lacking) -> bool {
        other.needs_name(one.name)
    }

    fn rank(&self, change: &&'l Lacking) -> u32 {
        change.name.0
    }
}

// The places of the changes, in the order of the walk.
pub fn walked(heap: Global, lacking: &[Lacking]) -> Result<Vec<usize>, AllocError>
    ensures places { IfOk result (λ v. Within v.items (places_of lacking.now)) }
    ensures are { IfOk result (λ v. (K : List Change) → ToldOf K lacking.now → Distinct (changes_at K (places_of lacking.now)) → changes_at K v.items ≡ walk_all (changes_at K (places_of lacking.now))) }
{
    let changes: Vec<&Lacking> = lacking.iter().collect(heap)?;
    let walked = walks::walked(heap, &ByNeeds, changes.as_slice())?;
    walked.iter().map(|change| change.place).collect(heap)
}
