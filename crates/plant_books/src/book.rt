// A book: what a plant holds, sane wherever anybody can look at it.
ghost use Rattle.plant_books.specs.Sane.{Sane};

use crate::contents::Contents;

mod methods;

#[derive(Drop)]
pub struct Book<'a> {
    contents: Contents<'a>,
    ghost sane: { ∥ Sane contents ∥₁ },
}
