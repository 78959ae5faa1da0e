// The change that is to be made of a request: on what is in the book, under which name.
use change::names::Name;
use shelf::Shelf;

#[derive(Clone, Copy)]
pub struct Upcoming<'a, 's> {
    pub shelf: &'a Shelf<'s>,
    pub name: Name,
}
