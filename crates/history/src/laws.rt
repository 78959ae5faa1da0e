// What holds of a book's history: each function's contract is a theorem.
ghost use Rattle.history.specs.Theorems.{SaneEmpty, SaneTake, SaneTakeBack, SaneLater, TakenIsFits, WaitsIsLacks, RefusedAltersNothing, LowestNext, CameIn};
ghost use Rattle.history.specs.Theorems.{EventsOfWaiting, WaitingEnds, NothingTurnsAround, RestStands, FreeIsUnneeded, AsIfNever, SameBytes, NextIsNew, NameGivenOnce};

use blocks::shown_alike;

// A book without changes is sane.
pub fn empty_book_is_sane()
    ensures { SaneEmpty }
{}

// Taking a change, in whatever way that ends, keeps a book sane.
pub fn taking_keeps_a_book_sane()
    ensures { SaneTake }
{}

// Taking a change back keeps a book sane.
pub fn taking_back_keeps_a_book_sane()
    ensures { SaneTakeBack }
{}

// A book stays sane for good.
pub fn book_stays_sane()
    ensures { SaneLater }
{}

// A change is taken exactly if it fits and there is room.
pub fn taken_exactly_if_it_fits()
    ensures { TakenIsFits }
{}

// A change waits exactly if it lacks a need and may wait.
pub fn waits_exactly_if_it_lacks_a_need()
    ensures { WaitsIsLacks }
{}

// What is refused alters nothing.
pub fn refused_alters_nothing()
    ensures { RefusedAltersNothing }
{}

// Of those that wait and are ready the one with the lowest name is tried next.
pub fn lowest_that_is_ready_is_next()
    ensures { LowestNext }
{}

// After taking a change the book has what it had and what the events call taken.
pub fn book_gains_what_is_called_taken()
    ensures { CameIn }
{}

// After the event of the change itself come events of changes that waited.
pub fn later_events_are_of_changes_that_waited()
    ensures { EventsOfWaiting }
{}

// A change that waited goes on waiting, comes in, or is turned away.
pub fn waiting_ends_in_three_ways()
    ensures { WaitingEnds }
{}

// Lines stand as they stood before a change was taken.
pub fn taking_turns_nothing_around()
    ensures { NothingTurnsAround }
{}

// Lines that remain stand as they stood before a change was taken back.
pub fn taking_back_turns_nothing_around()
    ensures { RestStands }
{}

// A change may be taken back exactly if it is in the book and none there needs it.
pub fn free_exactly_if_unneeded()
    ensures { FreeIsUnneeded }
{}

// Once a change is taken back, each sheet is shown as if it had never come.
pub fn as_if_it_never_came()
    ensures { AsIfNever }
{
    shown_alike()
}

// Books with the same changes show the same bytes.
pub fn same_changes_same_bytes()
    ensures { SameBytes }
{
    shown_alike()
}

// The plant's next name is new.
pub fn next_name_is_new()
    ensures { NextIsNew }
{}

// The name of a change that was ever in the book is not given again.
pub fn name_is_given_once()
    ensures { NameGivenOnce }
{}
