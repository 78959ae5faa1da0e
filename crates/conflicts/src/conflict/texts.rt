// The text of a line of a conflict's sheet.
ghost use Rattle.std.specs.Prelude.{◌≡◌, MatchOption, ◌==◌};
ghost use Rattle.std.specs.List.{find};
ghost use Rattle.change.specs.Membership.{In};
ghost use Rattle.conflicts.specs.Drafting.{numbers_in, text_of_line};

use crate::conflict::Conflict;
use change::span::Span;
use sheet::line::LineAt;

// The first line with this number.
fn line_of_number(lines: &[LineAt], number: u32) -> Option<LineAt>
    ensures { result ≡ find (λ line. line.number.0 == number) lines.now }
{
    lines.iter().copied().find(|line| line.number.0 == number)
}

impl Conflict {
    // The text of a line of the sheet, as a part of what holds all texts; none where it has no such line.
    pub(crate) fn text(&self, number: u32) -> Option<&[u8]>
        ensures { MatchOption result (In number (numbers_in self.now) → ⊥) (λ t. t.now ≡ text_of_line self.now number) }
    {
        let line = line_of_number(&self.all.lines, number)?;
        let Span { start, len } = line.text;
        Some(&self.all.texts[start..start + len])
    }
}
