// Sending: the letter with the changes that another book lacks.
ghost use Rattle.std.specs.Prelude.{◌≡◌, ◌≤◌, true, reverse, length};
ghost use Rattle.order.specs.Fits.{Listed};
ghost use Rattle.letters.specs.Letter.{is_letter, letter_limit};
ghost use Rattle.letters.specs.NamesView.{names_in};
ghost use Rattle.sending.specs.Sending.{sent};
ghost use Rattle.store.specs.Kept.{kept};
ghost use Rattle.outgoing.specs.Sent.{Sent};

use crate::lacking::all_lacking;
use crate::trouble::SendTrouble;
use crate::walk::walked;
use crate::writing::write_letter;
use letters::names::Names;
use std::alloc::Global;
use store::Store;

// Writes into `out` the letter for a book that has these names; its length.
pub fn send(
    heap: Global,
    store: &Store<'_>,
    names: &Names<'_>,
    out: &mut [u8],
) -> Result<usize, SendTrouble>
    requires listed { Listed (reverse (kept store.now)) }
    requires few { length (kept store.now) ≤ letter_limit }
    ensures sent { Sent (sent (names_in names.now) (reverse (kept store.now))) out.old out.new result }
    ensures letter { is_letter (sent (names_in names.now) (reverse (kept store.now))) ≡ true }
{
    let lacking = all_lacking(heap, store, names)?;
    let places = walked(heap, lacking.as_slice())?;
    write_letter(store, places.as_slice(), out).ok_or(SendTrouble::TooShort)
}
