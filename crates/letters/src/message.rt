// The head of a message: of which kind it is, and how many values there are in it.
ghost use Rattle.std.specs.Prelude.{◌≡◌, ◌≤◌, IfOk};
ghost use Rattle.change.specs.Cursor.{lent, left};
ghost use Rattle.change.specs.Kinds.{mark_of};
ghost use Rattle.change.specs.Reading.{answered, plain};
ghost use Rattle.letters.specs.Message.{head_bytes, head_of};

use change::cursor::Cursor;
use change::fault::Fault;
use change::kind::Kind;

pub const HEAD_LEN: usize = 3;

// How many values there are, at most `limit`, in a message of this kind.
pub fn read_head(cursor: &mut Cursor<'_>, kind: Kind, limit: usize) -> Result<usize, Fault>
    ensures reads { answered plain result (left cursor.new) ≡ head_of (mark_of kind) limit (left cursor.old) }
    ensures bound { IfOk result (λ n. n ≤ limit) }
    ensures same { lent cursor.new ≡ lent cursor.old }
{
    if cursor.byte()? != u8::from(kind) {
        return Err(Fault::Malformed);
    }
    let high = cursor.byte()?;
    let low = cursor.byte()?;
    let count = usize::from(high) * 256 + usize::from(low);
    if count > limit {
        return Err(Fault::Malformed);
    }
    Ok(count)
}

pub fn head(kind: Kind, count: u16) -> [u8; HEAD_LEN]
    ensures { result ≡ head_bytes (mark_of kind) count }
{
    let [high, low] = count.to_be_bytes();
    [u8::from(kind), high, low]
}
