// Whether a change keeps to its sheet, and to lines that it may name.
ghost use Rattle.std.specs.Prelude.{◌≡◌, ◌≤◌, [], length};
ghost use Rattle.std.specs.List.{list_all};
ghost use Rattle.change.specs.Viewed.{viewed};
ghost use Rattle.order.specs.Order.{puts};
ghost use Rattle.verdict.specs.FromNeeds.{from_needs};
ghost use Rattle.verdict.specs.Verdict.{is_named, all_named, is_related};
ghost use Rattle.shelf.specs.Relating.{SheetOf, is_of_sheet, earlier, are_named};
ghost use Rattle.shelf.specs.Sane.{changes};

use crate::Shelf;
use change::add::AddView;
use change::names::{Line, Name, Sheet};
use change::view::ChangeView;
use lines::is_given;

impl<'a> Shelf<'a> {
    // The sheet of the change of this name.
    fn sheet_of(&self, name: Name) -> Option<Sheet>
        ensures { SheetOf (changes self.now) name.0 result }
    {
        let place = self.store.find(name)?;
        self.store.sheet(place)
    }

    // The change of this name, if there is one, is of this sheet.
    pub fn is_of_sheet(&self, name: Name, sheet: Sheet) -> bool
        ensures { result ≡ is_of_sheet (changes self.now) sheet.0 name.0 }
    {
        match self.sheet_of(name) {
            Some(found) => found == sheet,
            None => true,
        }
    }

    fn all_of_sheet(&self, names: &[u32], sheet: Sheet) -> bool
        ensures { result ≡ list_all (is_of_sheet (changes self.now) sheet.0) names.now }
    {
        names
            .iter()
            .all(|name| self.is_of_sheet(Name(*name), sheet))
    }

    // The line is added by a change that this one needs: its number has the name of that change.
    fn is_from_needs(&self, view: &ChangeView<'_>, line: u32) -> bool
        ensures { result ≡ from_needs (changes self.now) (viewed view.now) line }
    {
        let bringer = Line(line).bringer().0;
        view.needs.as_slice().contains(&bringer) && self.lines.has(line)
    }

    // The add at a place may name this line.
    fn may_name(&self, view: &ChangeView<'_>, place: usize, line: u32) -> bool
        requires within { place ≤ length (viewed view.now).adds }
        ensures { result ≡ is_named (from_needs (changes self.now) (viewed view.now)) (earlier (viewed view.now) place) line }
    {
        let own = is_given(line, view.name.line(0).0, place);
        if line < 2 || own {
            return true;
        }
        self.is_from_needs(view, line)
    }

    // The add at a place may name both of its lines.
    fn is_add_named(&self, view: &ChangeView<'_>, place: usize, add: &AddView<'_>) -> bool
        requires within { place ≤ length (viewed view.now).adds }
        ensures { result ≡ are_named (from_needs (changes self.now) (viewed view.now)) (earlier (viewed view.now) place) add.now.after.0 add.now.before.0 }
    {
        self.may_name(view, place, add.after.0) && self.may_name(view, place, add.before.0)
    }

    fn are_adds_named(&self, view: &ChangeView<'_>) -> bool
        ensures { result ≡ all_named (from_needs (changes self.now) (viewed view.now)) [] (puts (viewed view.now)) }
    {
        view.adds
            .as_slice()
            .iter()
            .enumerate()
            .all(|(place, add)| self.is_add_named(view, place, add))
    }

    fn all_from_needs(&self, view: &ChangeView<'_>, lines: &[u32]) -> bool
        ensures { result ≡ list_all (from_needs (changes self.now) (viewed view.now)) lines.now }
    {
        lines.iter().all(|line| self.is_from_needs(view, *line))
    }

    // The change keeps to its sheet, and to lines that it may name.
    pub fn related(&self, view: &ChangeView<'_>) -> bool
        ensures { result ≡ is_related (changes self.now) (viewed view.now) }
    {
        if !self.all_of_sheet(view.needs.as_slice(), view.sheet) {
            return false;
        }
        self.are_adds_named(view) && self.all_from_needs(view, view.kills.as_slice())
    }
}
