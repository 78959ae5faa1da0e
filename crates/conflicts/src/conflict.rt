// A conflict of a sheet, and what has to be known to settle it.
ghost use Rattle.std.specs.Prelude.{◌≡◌, ℕ, true, vec_items};
ghost use Rattle.std.specs.List.{list_all};
ghost use Rattle.change.specs.Membership.{In};
ghost use Rattle.change.specs.WellFormed.{is_text};
ghost use Rattle.sheet.specs.Lines.{numbers, line_inside, text_in};

use crate::leading::Ends;
use display::gathered::Gathered;

mod texts;

// A conflict, by its ends, and all lines of its sheet with their texts.
#[derive(Drop)]
pub struct Conflict {
    pub ends: Ends,
    pub all: Gathered,
    pub ghost inside: { list_all (line_inside (vec_items all.texts)) (vec_items all.lines) ≡ true },
    pub ghost written: { (u : ℕ) → In u (numbers (vec_items all.lines)) → is_text (text_in (vec_items all.texts) (vec_items all.lines) u) ≡ true },
}
