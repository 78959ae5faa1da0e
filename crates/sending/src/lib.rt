// The theory of sending changes from one book to another: each function's contract is a theorem.
#![tactic(auto)]

ghost use Rattle.sending.specs.Theorems.{SentSends, OneLetter, SentAlike, CountsTell, AfterNeeds, ClosedTogether, NothingWaits, AllTaken, AllThere, GetsTheUnion, ReceivedSane, RefusedLeavesNoTrace};

// A letter has exactly the changes whose names weren't given, once each, in the order of the rule.
pub fn letter_is_what_is_lacking()
    ensures { SentSends }
{}

// There is one such letter.
pub fn one_letter_only()
    ensures { OneLetter }
{}

// Books with the same changes send the same letter.
pub fn letter_is_of_the_set()
    ensures { SentAlike }
{}

// The next change of a letter can be told by counts of what is still ahead of each.
pub fn counts_tell_the_next()
    ensures { CountsTell }
{}

// Each change of a letter comes after those that it needs.
pub fn needs_come_first()
    ensures { AfterNeeds }
{}

// With what the other has, a letter is closed.
pub fn letter_is_closed()
    ensures { ClosedTogether }
{}

// Nothing of a letter waits, unless one of it was turned away.
pub fn nothing_of_a_letter_waits()
    ensures { NothingWaits }
{}

// Where nothing is refused, all of a letter comes in.
pub fn all_comes_in_unless_refused()
    ensures { AllTaken }
{}

// Where nothing is refused but what is known, all of a letter is there.
pub fn all_is_there_unless_turned_away()
    ensures { AllThere }
{}

// With room for all, the book that gets a letter has what both had.
pub fn book_gets_the_union()
    ensures { GetsTheUnion }
{}

// Whatever letter it gets, a book stays sane and keeps what it had.
pub fn letter_keeps_a_book_sane()
    ensures { ReceivedSane }
{}

// What is turned away of a letter alters nothing.
pub fn refused_of_a_letter_leaves_no_trace()
    ensures { RefusedLeavesNoTrace }
{}
