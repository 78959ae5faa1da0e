// The bytes of a change, as they lie in a letter. A view of a change takes some two thousand bytes, so what is kept of a letter is where its changes lie, and each is viewed when its turn comes.
ghost use Rattle.std.specs.Prelude.{◌≡◌, true};
ghost use Rattle.change.specs.Bytes.{change_bytes};
ghost use Rattle.change.specs.WellFormed.{well_formed};
ghost use Rattle.letters.specs.ChangeRead.{change_read};

mod methods;

#[derive(Clone, Copy)]
pub struct ChangeBytes<'a> {
    bytes: &'a [u8],
    // They read as a change within all limits.
    pub ghost well: { well_formed (change_read bytes.now) ≡ true },
    // They are that change's own.
    pub ghost own: { bytes.now ≡ change_bytes (change_read bytes.now) },
}
