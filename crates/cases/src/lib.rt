// The worked cases: what sets of changes show, and what a book answers as changes come and go.
#![tactic(auto)]

ghost use Rattle.cases.specs.Rows.{WorkedCases};

// Each row of the table holds.
pub fn worked_cases()
    ensures { WorkedCases }
{}
