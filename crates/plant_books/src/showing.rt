// What a book shows of a sheet, and the lines that it has there.
ghost use Rattle.std.specs.Prelude.{◌≡◌, IfOk};
ghost use Rattle.blocks.specs.Sheet.{of_sheet, shown};
ghost use Rattle.display.specs.Listing.{Lists};
ghost use Rattle.plant_books.specs.Sane.{model_of};

use crate::contents::Contents;
use change::names::Sheet;
use display::Sheets;
use display::listing::Listing;
use std::alloc::{AllocError, Global};

impl<'a> Contents<'a> {
    // Its sheets.
    fn sheets(&self) -> Sheets<'_, 'a>
        ensures { result.store.now ≡ self.now.shelf.store }
    {
        Sheets {
            store: self.shelf.store(),
            lines: self.shelf.lines(),
        }
    }

    // The bytes in which a sheet is shown.
    pub fn show(&self, heap: Global, sheet: Sheet) -> Result<Vec<u8>, AllocError>
        ensures { IfOk result (λ v. v.items ≡ shown sheet.0 (model_of self.now).changes) }
    {
        self.sheets().show(heap, sheet)
    }

    // All lines of a sheet by rising number, with whether each lives, and its text.
    pub fn lines(&self, heap: Global, sheet: Sheet) -> Result<Listing, AllocError>
        ensures { IfOk result (λ g. Lists (of_sheet sheet.0 (model_of self.now).changes) g) }
    {
        self.sheets().lines_of(heap, sheet)
    }
}
