// The bytes of the change that a request comes to.
ghost use Rattle.std.specs.Prelude.{◌≡◌, ◌<◌, length, IfOk};
ghost use Rattle.change.specs.Bytes.{change_bytes};
ghost use Rattle.drafts.specs.Asked.{asked_by};

use crate::request::Request;
use change::names::Name;
use change::view::writing::bytes_of_parts;
use std::alloc::{AllocError, Global};

impl Request {
    // The bytes of the change of this name, with these needs and kills, that does what is asked.
    pub fn bytes_as(
        &self,
        heap: Global,
        name: Name,
        needs: &[u32],
        kills: &[u32],
    ) -> Result<Vec<u8>, AllocError>
        requires { (length needs.now < 256) × (length (asked_by self.now).adds < 256) × (length kills.now < 256) }
        ensures { IfOk result (λ v. v.items ≡ change_bytes (record { name = name.0; sheet = (asked_by self.now).sheet; needs = needs.now; adds = (asked_by self.now).adds; kills = kills.now })) }
    {
        bytes_of_parts(
            heap,
            name,
            self.sheet,
            needs,
            &self.texts,
            &self.adds,
            kills,
        )
    }
}
