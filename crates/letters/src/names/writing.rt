// Writing the names that a book has.
ghost use Rattle.std.specs.Prelude.{◌≡◌, true, IfOk};
ghost use Rattle.letters.specs.Names.{names_bytes, are_names};

use crate::message::head;
use change::kind::Kind;
use std::alloc::{AllocError, Global};

pub fn names_bytes(heap: Global, names: &[u32]) -> Result<Vec<u8>, AllocError>
    requires { are_names names.now ≡ true }
    ensures { IfOk result (λ v. v.items ≡ names_bytes names.now) }
{
    let mut out = Vec::new(heap);
    out.extend_from_slice(&head(Kind::Names, names.len() as u16))?;
    for n in names {
        out.extend_from_slice(&n.to_be_bytes())?;
    }
    Ok(out)
}
