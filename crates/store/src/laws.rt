// What holds of any store: the contract is a theorem.
ghost use Rattle.store.specs.Laid.{WholeIsLaid};

// The bytes that a store has in use are those of well-formed changes, one behind the other, and it keeps these and no others; bytes are whole exactly where they lie so.
pub fn whole_is_laid()
    ensures { WholeIsLaid }
{}
