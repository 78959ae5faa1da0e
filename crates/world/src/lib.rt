// The theory of several books that send one another changes: each function's contract is a theorem.
#![tactic(auto)]

ghost use Rattle.world.specs.Theorems.{WholeHolds, TakesWhatIsMeant, PassIsTaking, PassedBoth, PassedBothKnown, WaitingMatters, NothingForged};

// What can be relied on in every world of books, whatever happens in it.
pub fn theorem_of_the_whole()
    ensures { WholeHolds }
{}

// Bytes are taken as the change, or the letter, that they are.
pub fn bytes_are_taken_as_meant()
    ensures { TakesWhatIsMeant }
{}

// A pass is the taking of a letter.
pub fn pass_is_taking_a_letter()
    ensures { PassIsTaking }
{}

// After a pass each way, where nothing was turned away, both books show the same.
pub fn passed_both_ways_same_bytes()
    ensures { PassedBoth }
{}

// The same, where nothing was turned away but what was known.
pub fn passed_both_ways_but_for_known()
    ensures { PassedBothKnown }
{}

// What waits matters: a pass each way need not make two books the same where a change had waited in the first.
pub fn what_waits_matters()
    ensures { WaitingMatters }
{}

// Where nothing is forged, changes of one name are the same change in all books.
pub fn one_change_to_a_name_unless_forged()
    ensures { NothingForged }
{}
