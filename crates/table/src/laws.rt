// What holds of any table: the contract is a theorem.
ghost use Rattle.table.specs.Asked.{AskedExactly};

// What a table answers, where it holds the order of some lines, is exactly which stands before which.
pub fn asking_is_exact()
    ensures { AskedExactly }
{}
