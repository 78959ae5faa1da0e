// The theory of settling a conflict: each function's contract is a theorem.
#![tactic(auto)]

ghost use Rattle.settling.specs.Theorems.{SettlesInPieces, SomeLineLeads, PiecesAreFew, ConflictSettles, EveryConflictSettles, StaysSettled};

// A block is settled in any order of its lines, in pieces, behind any line that leads to it.
pub fn block_is_settled_in_pieces()
    ensures { SettlesInPieces }
{}

// Some line leads to a conflict, whatever stands above it.
pub fn some_line_leads_to_a_conflict()
    ensures { SomeLineLeads }
{}

// The pieces have the lines in their order, and are as few as can be.
pub fn pieces_are_few()
    ensures { PiecesAreFew }
{}

// A conflict is settled by the requests for its pieces.
pub fn conflict_is_settled()
    ensures { ConflictSettles }
{}

// Every conflict can be settled, wherever it stands and in any order of its lines.
pub fn every_conflict_can_be_settled()
    ensures { EveryConflictSettles }
{}

// Settled lines are shown in their order in every book with more changes, unless one of these strikes them out.
pub fn settled_stays_settled()
    ensures { StaysSettled }
{}
