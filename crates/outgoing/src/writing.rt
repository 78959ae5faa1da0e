// Writing the changes at some places of a store as one letter.
ghost use Rattle.std.specs.Prelude.{◌≡◌, ◌≤◌, length, nat_le};
ghost use Rattle.std.specs.List.{flat_map};
ghost use Rattle.change.specs.Bytes.{change_bytes};
ghost use Rattle.letters.specs.Letter.{letter_bytes, letter_limit};
ghost use Rattle.letters.specs.Written.{Written};
ghost use Rattle.store.specs.Kept.{kept};
ghost use Rattle.outgoing.specs.Places.{changes_at, ArePlaces};

use crate::reads::bytes_at;
use letters::HEAD_LEN;
use letters::writing::{begin, put};
use store::Store;

// The bytes of these changes fit into so much room.
fn fits(store: &Store<'_>, places: &[usize], room: usize) -> bool
    requires { ArePlaces (kept store.now) places.now }
    ensures { result ≡ nat_le (length (flat_map change_bytes (changes_at (kept store.now) places.now))) room }
{
    let mut left = room;
    for place in places {
        let len = bytes_at(store, *place).len();
        if len > left {
            return false;
        }
        left -= len;
    }
    true
}

// Writes these changes at the front of a slice; how many bytes they are. None, and nothing is altered, where they don't fit.
pub fn write_letter(store: &Store<'_>, places: &[usize], out: &mut [u8]) -> Option<usize>
    requires places { ArePlaces (kept store.now) places.now }
    requires few { length places.now ≤ letter_limit }
    ensures { Written 0 (letter_bytes (changes_at (kept store.now) places.now)) out.old out.new result }
{
    let room = out.len();
    if room < HEAD_LEN || !fits(store, places, room - HEAD_LEN) {
        return None;
    }
    let mut end = begin(out, places.len())?;
    for place in places {
        end = put(out, end, bytes_at(store, *place))?;
    }
    Some(end)
}
