// The theory of the order of lines: each function's contract is a theorem about any set of changes.
#![tactic(auto)]

ghost use Rattle.order.specs.Theorems.{Decided, StepIsOrder, ClearedIsOrder, NoRing, Inside, Agree, Steady, SetAlone};
ghost use Rattle.order.specs.Theorems.{SoundIsClosed, UnionClosed, UnionSound, PartSound, TakenBack, Joins, Meets, NamesMatter};

// Of two lines of a listed set the table that its adds make, as they came, says whether the one stands before the other.
pub fn order_is_decided()
    ensures { Decided }
{}

// The table of some puts is their order, and a step of it puts one more line in.
pub fn step_is_order()
    ensures { StepIsOrder }
{}

// A table from which a line was cleared is the table of the other puts.
pub fn cleared_is_order()
    ensures { ClearedIsOrder }
{}

// No line of a sound set stands before itself.
pub fn no_line_before_itself()
    ensures { NoRing }
{}

// Each added line stands behind the start and before the end.
pub fn lines_lie_inside()
    ensures { Inside }
{}

// Sound sets with one change to a name order the lines that both have in the same way.
pub fn sound_sets_agree()
    ensures { Agree }
{}

// A change that is added leaves the order of the lines that stood.
pub fn change_leaves_order()
    ensures { Steady }
{}

// The table is the same in whatever order the changes came.
pub fn order_is_of_the_set()
    ensures { SetAlone }
{}

// A sound set has what its changes need, and one change to a name.
pub fn sound_is_closed()
    ensures { SoundIsClosed }
{}

// Two closed sets are closed together.
pub fn union_is_closed()
    ensures { UnionClosed }
{}

// Two sound sets with one change to a name are sound together.
pub fn union_is_sound()
    ensures { UnionSound }
{}

// A closed part of a sound set is sound.
pub fn closed_part_is_sound()
    ensures { PartSound }
{}

// A change that no other needs can be taken out of a sound set, and the rest stands as it did.
pub fn change_can_be_taken_back()
    ensures { TakenBack }
{}

// Any two lines have a least line at or behind both.
pub fn lines_have_joins()
    ensures { Joins }
{}

// Any two lines have a greatest line at or before both.
pub fn lines_have_meets()
    ensures { Meets }
{}

// Sound sets need not agree where two changes have one name.
pub fn names_matter()
    ensures { NamesMatter }
{}
