// The theory of making a change on a book as it is: each function's contract is a theorem.
#![tactic(auto)]

ghost use Rattle.making.specs.Theorems.{MadeAsAsked, NeedsExactly, MadeFits, MadeNameIsNew, MadeComesIn, LowestWins, MadeUnlessRefused};
ghost use Rattle.making.specs.Theorems.{MadeIfTaken, MissingIsUnknown, UnrelatedIsOffSheet};

// What is made has the next name, and does what was asked.
pub fn made_as_asked()
    ensures { MadeAsAsked }
{}

// It needs the changes that the lines named come from, and no others.
pub fn needs_are_exact()
    ensures { NeedsExactly }
{}

// What is made fits the book, and the book takes it.
pub fn made_change_fits()
    ensures { MadeFits }
{}

// The name of what is made is new.
pub fn made_name_is_new()
    ensures { MadeNameIsNew }
{}

// A book in which a change was made has it, and is sane.
pub fn made_change_comes_in()
    ensures { MadeComesIn }
{}

// A request is refused by the lowest number of the refusals that hold.
pub fn lowest_refusal_wins()
    ensures { LowestWins }
{}

// The change is made exactly if no refusal holds.
pub fn made_unless_refused()
    ensures { MadeUnlessRefused }
{}

// Nothing is refused without need: a change is made exactly if it is well formed and the book takes it.
pub fn made_exactly_if_taken()
    ensures { MadeIfTaken }
{}

// Missing says that a line named is unknown.
pub fn missing_means_unknown()
    ensures { MissingIsUnknown }
{}

// Unrelated says that a line named is of another sheet, or that the start or the end is struck out.
pub fn unrelated_means_off_sheet()
    ensures { UnrelatedIsOffSheet }
{}
