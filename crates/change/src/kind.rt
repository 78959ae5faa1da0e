// What a message, or a record of a book's file, is: its first byte says so.
ghost use Rattle.std.specs.Prelude.{◌≡◌};
ghost use Rattle.change.specs.Kinds.{mark_of};

#[derive(Clone, Copy, Debug, PartialEq, Eq)]
pub enum Kind {
    Change = 1,
    Letter = 2,
    // The names that a book has.
    Names = 3,
    // A record that says that a change was taken back.
    TakenBack = 4,
}

impl From<Kind> for u8 {
    ghost from_gives = { λ kind byte. byte ≡ mark_of kind };

    fn from(kind: Kind) -> u8 {
        kind as u8
    }
}
