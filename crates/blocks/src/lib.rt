// The theory of blocks, in which a sheet is shown: each function's contract is a theorem.
// First come those about any strict order of lines that a test tells, then those about sets of changes.
#![tactic(auto)]

ghost use Rattle.blocks.specs.Theorems.{Found, OneWay, BlocksApart, Plain, SameBlock, UpperBefore, Between};
ghost use Rattle.blocks.specs.Theorems.{SheetListed, LivingAlive, TextOfAdd, SetFound, SetOneWay, SetApart, SetPlain, SetSameBlock, SetUpper, SetBetween, ShownOneWay};

// The blocks that are found show the lines.
pub fn blocks_show_the_lines()
    ensures { Found }
{}

// Lines are shown in one way only.
pub fn one_way_to_show()
    ensures { OneWay }
{}

// Of two blocks one stands before the other as a whole.
pub fn blocks_stand_apart()
    ensures { BlocksApart }
{}

// Without loose lines each block is one line.
pub fn plain_blocks_without_loose_lines()
    ensures { Plain }
{}

// Lines are in one block exactly if they are tied.
pub fn one_block_for_tied_lines()
    ensures { SameBlock }
{}

// What is shown in an upper block stands before, and no line is shown above one that stands before it.
pub fn upper_stands_before()
    ensures { UpperBefore }
{}

// A line that stands between two is shown between them.
pub fn shown_between()
    ensures { Between }
{}

// The changes of a sheet could have come without those of the others.
pub fn sheet_stands_alone()
    ensures { SheetListed }
{}

// The list of living lines has those that live.
pub fn living_lines_live()
    ensures { LivingAlive }
{}

// Each line is shown with the text of its add.
pub fn text_of_its_add()
    ensures { TextOfAdd }
{}

// The blocks of a set of changes show its living lines in their order.
pub fn set_blocks_show_its_lines()
    ensures { SetFound }
{}

// The living lines of a set are shown in one way only, however its changes came.
pub fn set_one_way_to_show()
    ensures { SetOneWay }
{}

// Of two blocks of a set one stands before the other as a whole.
pub fn set_blocks_stand_apart()
    ensures { SetApart }
{}

// A set without loose lines has blocks of one line.
pub fn set_plain_blocks()
    ensures { SetPlain }
{}

// Lines of a set are in one block exactly if they are tied.
pub fn set_one_block_for_tied_lines()
    ensures { SetSameBlock }
{}

// What is shown in an upper block of a set stands before.
pub fn set_upper_stands_before()
    ensures { SetUpper }
{}

// A line that stands between two by the order of a set is shown between them.
pub fn set_shown_between()
    ensures { SetBetween }
{}

// The bytes shown of each sheet depend on the set of changes alone.
pub fn shown_alike()
    ensures { ShownOneWay }
{}
