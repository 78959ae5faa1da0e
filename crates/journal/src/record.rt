// The records of a book's file: read from lent bytes, and written.
use change::names::Name;
use change::view::ChangeView;

mod methods;

// What a record says: a change came in, which is told by a C, or the change of a name was taken back.
#[derive(Clone, Copy)]
pub enum Told<C> {
    Came(C),
    Went(Name),
}

// A record as it lies in lent bytes.
pub type RecordView<'a> = Told<ChangeView<'a>>;

pub use methods::went_bytes;
