// Why nothing was sent.
ghost use Rattle.std.specs.Prelude.{◌≡◌};
ghost use Rattle.plant_books.specs.declared.send_trouble.SendFault.TheVariants.{Refused as turned_away};
ghost use Rattle.plant_books.specs.SendFaults.{fault_of};

use change::refusal::Refusal;
use outgoing::trouble::SendTrouble;

#[derive(Clone, Copy)]
pub enum SendFault {
    // The names that the other has can't be read.
    Refused(Refusal),
    // The letter is longer than the slice that it was to go into.
    TooShort,
    // There is no memory to put the changes in order.
    Memory,
}

impl From<Refusal> for SendFault {
    ghost from_gives = { λ e r. r ≡ turned_away e };

    fn from(refusal: Refusal) -> SendFault {
        SendFault::Refused(refusal)
    }
}

impl From<SendTrouble> for SendFault {
    ghost from_gives = { λ e r. r ≡ fault_of e };

    fn from(trouble: SendTrouble) -> SendFault {
        match trouble {
            SendTrouble::TooShort => SendFault::TooShort,
            SendTrouble::Memory => SendFault::Memory,
        }
    }
}
