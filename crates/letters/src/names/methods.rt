// Looking at the names that a book has.
ghost use Rattle.std.specs.Prelude.{◌≡◌, ◌<◌, length, slice_index};
ghost use Rattle.std.specs.List.{slice_get};
ghost use Rattle.std.specs.Option.{option_map};
ghost use Rattle.verdict.specs.FromNeeds.{is_among};
ghost use Rattle.letters.specs.NamesView.{names_in};

use crate::message::HEAD_LEN;
use crate::names::Names;
use change::names::Name;

impl<'a> Names<'a> {
    pub fn len(&self) -> usize
        ensures { result ≡ length (names_in self.now) }
    {
        let bytes = self.bytes;
        usize::from(u16::from_be_bytes([bytes[1], bytes[2]]))
    }

    // The number of the name at a place.
    fn number(&self, place: usize) -> u32
        requires { place < length (names_in self.now) }
        ensures { result ≡ slice_index (names_in self.now) place }
    {
        let bytes = self.bytes;
        let at = HEAD_LEN + 4 * place;
        u32::from_be_bytes([bytes[at], bytes[at + 1], bytes[at + 2], bytes[at + 3]])
    }

    // The name at a place.
    pub fn get(&self, place: usize) -> Option<Name>
        ensures { option_map (λ n. n.0) result ≡ slice_get (names_in self.now) place }
    {
        if place < self.len() {
            Some(Name(self.number(place)))
        } else {
            None
        }
    }

    // Is this name one of them: they rise, so each look halves what is left.
    pub fn has(&self, name: Name) -> bool
        ensures { result ≡ is_among name.0 (names_in self.now) }
    {
        let mut low = 0;
        let mut high = self.len();
        while low < high {
            let middle = low + (high - low) / 2;
            let number = self.number(middle);
            if number == name.0 {
                return true;
            }
            if number < name.0 {
                low = middle + 1;
            } else {
                high = middle;
            }
        }
        false
    }
}
