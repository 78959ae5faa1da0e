// What holds of reading and writing letters and names: each function's contract is a theorem.
ghost use Rattle.letters.specs.Theorems.{LetterReadsExactly, LetterHasOneString, FrontOfLetterIsCutShort, MalformedLetterForGood, NamesReadExactly, NamesHaveOneString, FrontOfNamesIsCutShort, MalformedNamesForGood};

// A letter is read exactly where the bytes are its bytes.
pub fn letter_reads_exactly()
    ensures { LetterReadsExactly }
{}

// A letter has one string of bytes, and no other letter has it.
pub fn letter_has_one_string()
    ensures { LetterHasOneString }
{}

// A letter whose last bytes are missing is cut short, wherever it is cut.
pub fn front_of_letter_is_cut_short()
    ensures { FrontOfLetterIsCutShort }
{}

// Nothing that follows mends a malformed letter.
pub fn malformed_letter_for_good()
    ensures { MalformedLetterForGood }
{}

// Names are read exactly where the bytes are their bytes.
pub fn names_read_exactly()
    ensures { NamesReadExactly }
{}

// Names have one string of bytes, and no others have it.
pub fn names_have_one_string()
    ensures { NamesHaveOneString }
{}

// Names whose last bytes are missing are cut short, wherever they are cut.
pub fn front_of_names_is_cut_short()
    ensures { FrontOfNamesIsCutShort }
{}

// Nothing that follows mends malformed names.
pub fn malformed_names_for_good()
    ensures { MalformedNamesForGood }
{}
