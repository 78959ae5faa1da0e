// Reading a record, and the bytes of a taking back. (Those of a change that came in are its own.)
ghost use Rattle.std.specs.Prelude.{◌≡◌, IfOk};
ghost use Rattle.change.specs.Cursor.{lent, left};
ghost use Rattle.change.specs.Reading.{answered, plain};
ghost use Rattle.journal.specs.Record.{went_of, went_bytes, record_of};
ghost use Rattle.journal.specs.Viewed.{recorded, Formed};

use crate::record::{RecordView, Told};
use change::cursor::Cursor;
use change::fault::Fault;
use change::kind::Kind;
use change::names::Name;
use change::view::ChangeView;

// The name of the change that was taken back.
fn read_went(cursor: &mut Cursor<'_>) -> Result<u32, Fault>
    ensures reads { answered plain result (left cursor.new) ≡ went_of (left cursor.old) }
    ensures same { lent cursor.new ≡ lent cursor.old }
{
    if cursor.byte()? != u8::from(Kind::TakenBack) {
        return Err(Fault::Malformed);
    }
    cursor.number_within(u64::from(Name::LOWEST.0), Name::HIGHEST.0)
}

impl<'a> Told<ChangeView<'a>> {
    // The record at the front of what the cursor has to read.
    pub fn read(cursor: &mut Cursor<'a>) -> Result<RecordView<'a>, Fault>
        ensures reads { answered recorded result (left cursor.new) ≡ record_of (left cursor.old) }
        ensures formed { IfOk result (λ v. Formed v) }
        ensures same { lent cursor.new ≡ lent cursor.old }
    {
        if cursor.is_next(u8::from(Kind::TakenBack)) {
            let name = read_went(cursor)?;
            return Ok(Told::Went(Name(name)));
        }
        let change = ChangeView::read(cursor)?;
        Ok(Told::Came(change))
    }
}

// The bytes of a taking back.
pub fn went_bytes(name: Name) -> [u8; 5]
    ensures { result ≡ went_bytes name.0 }
{
    let [a, b, c, d] = name.0.to_be_bytes();
    [u8::from(Kind::TakenBack), a, b, c, d]
}
