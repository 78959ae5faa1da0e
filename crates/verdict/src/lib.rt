// What fits, decided by tests: each function's contract is a theorem.
#![tactic(auto)]

ghost use Rattle.verdict.specs.Theorems.{FitsDecided, ListedDecided, FitsAlike};

// The tests tell whether a change fits a listed set.
pub fn tests_decide_what_fits()
    ensures { FitsDecided }
{}

// They tell whether the changes of a list fit one after the other.
pub fn tests_decide_what_is_listed()
    ensures { ListedDecided }
{}

// What fits a set does so in whatever order its changes came.
pub fn fits_is_of_the_set()
    ensures { FitsAlike }
{}
