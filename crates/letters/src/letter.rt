// Reading a letter: the bytes of each of its changes.
ghost use Rattle.std.specs.Prelude.{◌≡◌, if◌then◌else◌, Some, None, vec_items};
ghost use Rattle.std.specs.Option.{option_map};
ghost use Rattle.change.specs.Cursor.{lent, left};
ghost use Rattle.change.specs.Reading.{several, change_of};
ghost use Rattle.change.specs.View.{cut, inside};
ghost use Rattle.letters.specs.LetterRead.{LetterRead, ChangesRead};

use crate::change_bytes::ChangeBytes;
use crate::message::read_head;
use change::cursor::Cursor;
use change::kind::Kind;
use change::refusal::Refusal;
use change::span::Span;
use change::trouble::Trouble;
use change::view::ChangeView;
use std::alloc::Global;

pub const LETTER_LIMIT: usize = 1024;

fn read_changes<'a>(
    heap: Global,
    cursor: &mut Cursor<'a>,
    count: usize,
) -> Result<Vec<ChangeBytes<'a>>, Trouble>
    ensures reads { ChangesRead vec_items (several (λ _. change_of) (λ _. 0) count 0 (left cursor.old)) (left cursor.new) result }
    ensures same { lent cursor.new ≡ lent cursor.old }
{
    let mut changes = Vec::new(heap);
    for _ in 0..count {
        let view = ChangeView::read(cursor)?;
        changes.push(ChangeBytes::of(&view))?;
    }
    Ok(changes)
}

// The changes of the letter that these bytes are, all of them.
pub fn read_letter(heap: Global, bytes: &[u8]) -> Result<Vec<ChangeBytes<'_>>, Trouble>
    ensures { LetterRead vec_items bytes.now result }
{
    let mut cursor = Cursor::new(bytes);
    let count = read_head(&mut cursor, Kind::Letter, LETTER_LIMIT)?;
    let changes = read_changes(heap, &mut cursor, count)?;
    if !cursor.is_done() {
        return Err(Trouble::Refused(Refusal::Malformed));
    }
    Ok(changes)
}

// A part of lent bytes by its place.
pub fn part(bytes: &[u8], span: Span) -> Option<&[u8]>
    ensures { option_map (λ s. s.now) result ≡ (if inside bytes.now span then Some (cut bytes.now span) else None) }
{
    let start = span.start;
    let len = span.len;
    if start > bytes.len() || len > bytes.len() - start {
        return None;
    }
    Some(&bytes[start..start + len])
}
