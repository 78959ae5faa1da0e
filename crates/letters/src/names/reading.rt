// Reading the names that a book has.
ghost use Rattle.std.specs.Prelude.{◌≡◌};
ghost use Rattle.change.specs.Cursor.{lent, left};
ghost use Rattle.change.specs.Reading.{answered, plain};
ghost use Rattle.letters.specs.Names.{names_of};
ghost use Rattle.letters.specs.NamesView.{NamesRead, passed};

use crate::message::read_head;
use crate::names::{NAMES_LIMIT, Names};
use change::cursor::Cursor;
use change::fault::Fault;
use change::kind::Kind;
use change::names::Name;
use change::refusal::Refusal;

// Reads names, and keeps none of them.
fn pass_names(cursor: &mut Cursor<'_>) -> Result<(), Fault>
    ensures reads { answered plain result (left cursor.new) ≡ passed (names_of (left cursor.old)) }
    ensures same { lent cursor.new ≡ lent cursor.old }
{
    let count = read_head(cursor, Kind::Names, NAMES_LIMIT)?;
    let mut low = u64::from(Name::LOWEST.0);
    for _ in 0..count {
        let name = cursor.number_within(low, Name::HIGHEST.0)?;
        low = u64::from(name) + 1;
    }
    Ok(())
}

impl<'a> Names<'a> {
    // The names that these bytes are, all of them.
    pub fn read(bytes: &'a [u8]) -> Result<Names<'a>, Refusal>
        ensures { NamesRead bytes.now result }
    {
        let mut cursor = Cursor::new(bytes);
        let Ok(()) = pass_names(&mut cursor) else {
            return Err(Refusal::Malformed);
        };
        if !cursor.is_done() {
            return Err(Refusal::Malformed);
        }
        Ok(Names { bytes })
    }
}
