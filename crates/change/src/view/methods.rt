// Reading a change from lent bytes, and its texts as parts of them.
ghost use Rattle.std.specs.Prelude.{◌≡◌, IfOk};
ghost use Rattle.change.specs.Bytes.{change_bytes};
ghost use Rattle.change.specs.Cursor.{lent, left};
ghost use Rattle.change.specs.Reading.{answered, change_of};
ghost use Rattle.change.specs.Viewed.{viewed, WholeRead, text_at};
ghost use Rattle.std.specs.Option.{option_map};

use crate::cursor::Cursor;
use crate::fault::Fault;
use crate::kind::Kind;
use crate::names::{Name, Sheet};
use crate::refusal::Refusal;
use crate::view::ChangeView;

impl<'a> ChangeView<'a> {
    // The change at the front of what the cursor has to read.
    pub fn read(cursor: &mut Cursor<'a>) -> Result<ChangeView<'a>, Fault>
        ensures reads { answered viewed result (left cursor.new) ≡ change_of (left cursor.old) }
        ensures same { lent cursor.new ≡ lent cursor.old }
    {
        let start = cursor.position();
        if cursor.byte()? != u8::from(Kind::Change) {
            return Err(Fault::Malformed);
        }
        let name = Name(cursor.number_within(u64::from(Name::LOWEST.0), Name::HIGHEST.0)?);
        let sheet = Sheet(cursor.byte()?);
        let needs = cursor.rising(Name::LOWEST.0, Name::HIGHEST.0)?;
        let adds = cursor.adds()?;
        let kills = cursor.rising(0, u32::MAX)?;
        let bytes = cursor.since(start);
        Ok(ChangeView {
            bytes,
            name,
            sheet,
            needs,
            adds,
            kills,
        })
    }

    // The change that these bytes are, all of them.
    pub fn read_whole(bytes: &'a [u8]) -> Result<ChangeView<'a>, Refusal>
        ensures { WholeRead bytes.now result }
    {
        let mut cursor = Cursor::new(bytes);
        let Ok(view) = ChangeView::read(&mut cursor) else {
            return Err(Refusal::Malformed);
        };
        if !cursor.is_done() {
            return Err(Refusal::Malformed);
        }
        Ok(view)
    }

    // The text of the add at a place, as a part of the lent bytes.
    pub fn text(&self, place: usize) -> Option<&'a [u8]>
        ensures { option_map (λ text. text.now) result ≡ text_at (viewed self.now) place }
    {
        self.adds.as_slice().get(place).map(|add| add.text)
    }

    // The change's own bytes.
    pub fn bytes(&self) -> &'a [u8]
        ensures { result.now ≡ change_bytes (viewed self.now) }
    {
        self.bytes
    }
}
