// The names of the changes that a book has, as they lie in lent bytes.
ghost use Rattle.std.specs.Prelude.{◌≡◌, true};
ghost use Rattle.letters.specs.Names.{names_bytes, are_names};
ghost use Rattle.letters.specs.NamesRead.{names_read};

mod methods;
mod reading;
mod writing;

pub const NAMES_LIMIT: usize = 1024;

#[derive(Clone, Copy)]
pub struct Names<'a> {
    bytes: &'a [u8],
    // They are names within the limits, each higher than the one before it.
    pub ghost named: { are_names (names_read bytes.now) ≡ true },
    // The bytes are theirs.
    pub ghost own: { bytes.now ≡ names_bytes (names_read bytes.now) },
}

pub use writing::names_bytes;
