// A change as it lies in lent bytes: its numbers read, its texts parts of these bytes.
ghost use Rattle.std.specs.Prelude.{◌≡◌, true};
ghost use Rattle.change.specs.Bytes.{change_bytes};
ghost use Rattle.change.specs.View.{change_from};
ghost use Rattle.change.specs.WellFormed.{well_formed};

use crate::add::AddView;
use crate::few::Few;
use crate::names::{Name, Sheet};
use crate::span::ADD_LIMIT;

mod methods;
pub mod writing;

pub const NEED_LIMIT: usize = 32;

pub const KILL_LIMIT: usize = 64;

#[derive(Clone, Copy)]
pub struct ChangeView<'a> {
    bytes: &'a [u8],
    pub name: Name,
    pub sheet: Sheet,
    pub needs: Few<u32, NEED_LIMIT>,
    pub adds: Few<AddView<'a>, ADD_LIMIT>,
    pub kills: Few<u32, KILL_LIMIT>,
    // The change is within all limits.
    pub ghost well: { well_formed (change_from name.0 sheet.0 needs adds kills) ≡ true },
    // The bytes are the change's own.
    pub ghost own: { bytes.now ≡ change_bytes (change_from name.0 sheet.0 needs adds kills) },
}
