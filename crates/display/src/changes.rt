// The changes of one sheet among those that a store keeps.
ghost use Rattle.std.specs.Prelude.{◌≡◌};
ghost use Rattle.std.specs.List.{slice_get};
ghost use Rattle.std.specs.Option.{option_map, option_to_list};
ghost use Rattle.change.specs.Viewed.{viewed};
ghost use Rattle.store.specs.Kept.{kept};
ghost use Rattle.blocks.specs.Sheet.{of_sheet};

use change::names::Sheet;
use change::view::ChangeView;
use store::Store;

// The change at a place, where it is one of the sheet.
pub fn change_of<'s>(store: &'s Store<'_>, sheet: Sheet, place: usize) -> Option<ChangeView<'s>>
    ensures { option_to_list (option_map viewed result) ≡ of_sheet sheet.0 (option_to_list (slice_get (kept store.now) place)) }
{
    if store.sheet(place)? != sheet {
        return None;
    }
    store.get(place)
}
