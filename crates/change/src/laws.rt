// What holds of reading and writing changes: each function's contract is a theorem.
ghost use Rattle.change.specs.Codec.{ReadsExactly, OneString, FrontIsCutShort, MalformedForGood};

// A change is read exactly where the bytes are its bytes.
pub fn reading_is_exact()
    ensures { ReadsExactly }
{}

// A change has one string of bytes, and no other change has it.
pub fn change_has_one_string()
    ensures { OneString }
{}

// A change whose last bytes are missing is cut short, wherever it is cut.
pub fn front_is_cut_short()
    ensures { FrontIsCutShort }
{}

// Nothing that follows mends what is malformed.
pub fn malformed_for_good()
    ensures { MalformedForGood }
{}
