// Lent bytes, and how far they have been read.
ghost use Rattle.std.specs.Prelude.{◌≤◌, length};

mod parts;
mod steps;

#[derive(Drop)]
pub struct Cursor<'a> {
    bytes: &'a [u8],
    at: usize,
    ghost inside: { at ≤ length bytes.now },
}
