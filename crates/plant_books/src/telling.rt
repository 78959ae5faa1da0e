// What a book tells another: the names that it has, and the changes that the other lacks.
ghost use Rattle.std.specs.Prelude.{◌≡◌, IfOk};
ghost use Rattle.letters.specs.Names.{names_bytes};
ghost use Rattle.outgoing.specs.NameList.{name_list};
ghost use Rattle.plant_books.specs.Sane.{model_of};
ghost use Rattle.plant_books.specs.Sent.{SentFor};

use crate::contents::Contents;
use crate::send_trouble::SendFault;
use letters::names::Names;
use outgoing::have::have;
use outgoing::send::send;
use std::alloc::{AllocError, Global};

impl<'a> Contents<'a> {
    // The names that it has, as bytes.
    pub fn have(&self, heap: Global) -> Result<Vec<u8>, AllocError>
        ensures { IfOk result (λ v. v.items ≡ names_bytes (name_list (model_of self.now).changes)) }
    {
        have(heap, self.shelf.store())
    }

    // Writes the letter for a book that has these names, which come as bytes; its length.
    pub fn send(&self, heap: Global, names: &[u8], out: &mut [u8]) -> Result<usize, SendFault>
        ensures { SentFor (model_of self.now) names.now out.old out.new result }
    {
        let names = Names::read(names)?;
        let len = send(heap, self.shelf.store(), &names, out)?;
        Ok(len)
    }
}
