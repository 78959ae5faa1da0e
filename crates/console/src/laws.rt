// What holds of lines and of digits: each function's contract is a theorem.
ghost use Rattle.console.specs.Hex.{ReadsBack};
ghost use Rattle.console.specs.Meaning.{OneMeaning};

// A line says at most one command.
pub fn line_says_one_command()
    ensures { OneMeaning }
{}

// Digits that were written read as the bytes that they were written from.
pub fn hex_reads_back()
    ensures { ReadsBack }
{}
