// What a change is to do, said line by line before it is made.
ghost use Rattle.std.specs.Prelude.{◌≡◌, true};
ghost use Rattle.std.specs.List.{list_all};
ghost use Rattle.change.specs.View.{add_inside};
ghost use Rattle.making.specs.Making.{is_written};
ghost use Rattle.drafts.specs.Parts.{request_from};

use change::names::{Line, Sheet};
use change::span::AddAt;

mod bytes;
mod filling;
mod knowing;
mod made;
mod needs;
mod refusing;
mod sheets;
mod standing;
pub mod upcoming;

#[derive(Drop)]
pub struct Request {
    sheet: Sheet,
    // Their texts lie in `texts`.
    adds: Vec<AddAt>,
    texts: Vec<u8>,
    // As they were said.
    kills: Vec<Line>,
    pub ghost written: { is_written (request_from sheet.0 texts.items adds.items kills.items) ≡ true },
    pub ghost inside: { list_all (add_inside texts.items) adds.items ≡ true },
}
