// What holds of the file of a book: each function's contract is a theorem.
ghost use Rattle.journal.specs.Theorems.{RecordReadsExactly, RecordHasOneString, FrontOfRecordIsCutShort, MalformedRecordForGood, ReplayIsTaking, ReplayIsTakingBack, OpenedArises, OpensExactly, RecordsOpen, OpensAgain, FrontOpens, FiledEmpty, FiledTake, FiledMade, FiledBack, FiledAlways, CrashLeavesAMoment};

// A record is read exactly where the bytes are its bytes.
pub fn record_reads_exactly()
    ensures { RecordReadsExactly }
{}

// A record has one string of bytes, and no other record has it.
pub fn record_has_one_string()
    ensures { RecordHasOneString }
{}

// A record whose last bytes are missing is cut short, wherever it is cut.
pub fn front_of_record_is_cut_short()
    ensures { FrontOfRecordIsCutShort }
{}

// Nothing that follows mends a malformed record.
pub fn malformed_record_for_good()
    ensures { MalformedRecordForGood }
{}

// To replay a change that came in is to take it.
pub fn replaying_is_taking()
    ensures { ReplayIsTaking }
{}

// To replay that a change was taken back is to take it back.
pub fn replaying_is_taking_back()
    ensures { ReplayIsTakingBack }
{}

// Opening replays the records at the front of the bytes, and stops where one is cut short, malformed or misplaced.
pub fn opening_replays_exactly()
    ensures { OpensExactly }
{}

// The bytes of records that replay are opened to where these lead.
pub fn records_open()
    ensures { RecordsOpen }
{}

// What opening keeps, however damaged the file was, opens to the same book.
pub fn what_is_kept_opens_again()
    ensures { OpensAgain }
{}

// The first bytes of a file open to the book after the records that lie wholly in them.
pub fn front_of_a_file_opens()
    ensures { FrontOpens }
{}

// A book that was opened, from whatever bytes, came about by taking and taking back.
pub fn opened_book_arises()
    ensures { OpenedArises }
{}

// The file of a book without changes has no bytes.
pub fn empty_book_is_filed()
    ensures { FiledEmpty }
{}

// With the changes that came in written behind it, the file is that of the book after taking.
pub fn taking_is_filed()
    ensures { FiledTake }
{}

// So it is after making.
pub fn making_is_filed()
    ensures { FiledMade }
{}

// And after taking back, with the record of that.
pub fn taking_back_is_filed()
    ensures { FiledBack }
{}

// Whatever was called, the file opens to the book.
pub fn file_follows_the_book()
    ensures { FiledAlways }
{}

// Whatever a crash leaves behind what was synced, opening gives the book of a moment at or after the sync.
pub fn crash_leaves_a_moment()
    ensures { CrashLeavesAMoment }
{}
