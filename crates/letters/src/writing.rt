// Writing a letter into a lent slice: its head, and then its changes, one behind the other.
ghost use Rattle.letters.specs.Written.{Written, Begun};

use crate::letter::LETTER_LIMIT;
use crate::message::head;
use change::kind::Kind;

// Begins a letter of so many changes; the place behind its head. None, and nothing is altered, where there are too many or the slice is too short.
pub fn begin(out: &mut [u8], count: usize) -> Option<usize>
    ensures { Begun count out.old out.new result }
{
    if count > LETTER_LIMIT {
        return None;
    }
    put(out, 0, &head(Kind::Letter, count as u16))
}

// Puts bytes at a place; the place behind them. None, and nothing is altered, where they don't fit.
pub fn put(out: &mut [u8], at: usize, bytes: &[u8]) -> Option<usize>
    ensures { Written at bytes.now out.old out.new result }
{
    if at > out.len() || bytes.len() > out.len() - at {
        return None;
    }
    let end = at + bytes.len();
    out[at..end].copy_from_slice(bytes);
    Some(end)
}
