// What the change of a request needs: the changes that the lines named come from.
ghost use Rattle.std.specs.Prelude.{◌≡◌, map, filter, IfOk};
ghost use Rattle.change.specs.Model.{bringer};
ghost use Rattle.making.specs.Sorted.{sorted};
ghost use Rattle.drafts.specs.Asked.{asked_by};
ghost use Rattle.drafts.specs.Named.{is_foreign_to, needs_named};
ghost use Rattle.drafts.specs.Needs.{lines_in};

use crate::request::Request;
use crate::rising::in_rising_order;
use change::names::{Line, Name};
use change::span::AddAt;
use std::alloc::{AllocError, Global};

// The line is neither the start, the end, nor of the change of this name.
fn is_foreign(name: Name, line: Line) -> bool
    ensures { result ≡ is_foreign_to name.0 line.0 }
{
    line.is_added() && line.bringer() != name
}

// The other changes that the lines come from which are named, rising.
fn bringers(
    heap: Global,
    name: Name,
    adds: &[AddAt],
    kills: &[Line],
) -> Result<Vec<u32>, AllocError>
    ensures { IfOk result (λ v. v.items ≡ sorted (map (λ line. bringer line.0) (filter (λ line. is_foreign_to name.0 line.0) (lines_in adds.now kills.now)))) }
{
    let afters = adds.iter().map(|add| add.after);
    let befores = adds.iter().map(|add| add.before);
    let bringers = afters
        .chain(befores)
        .chain(kills.iter().copied())
        .filter(|line| is_foreign(name, *line))
        .map(|line| line.bringer().0);
    in_rising_order(heap, bringers)
}

impl Request {
    // What the change of this name needs.
    pub fn needs(&self, heap: Global, name: Name) -> Result<Vec<u32>, AllocError>
        ensures { IfOk result (λ v. v.items ≡ needs_named name.0 (asked_by self.now)) }
    {
        bringers(heap, name, &self.adds, &self.kills)
    }

    // The numbers of the lines to be struck out, each once.
    pub fn rising_kills(&self, heap: Global) -> Result<Vec<u32>, AllocError>
        ensures { IfOk result (λ v. v.items ≡ sorted (asked_by self.now).kills) }
    {
        in_rising_order(heap, self.kills.iter().map(|line| line.0))
    }
}
