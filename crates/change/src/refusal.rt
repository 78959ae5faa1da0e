// Why a change, a letter, a file or a line of a program is turned away.
ghost use Rattle.std.specs.Prelude.{◌≡◌, Some};
ghost use Rattle.change.specs.Refusals.{number_of, words_of};

use std::fmt;

#[derive(Clone, Copy, Debug, PartialEq, Eq)]
pub enum Refusal {
    // Cut short, too long, or something in it is wrong; no command of the program.
    Malformed,
    // A change of this name is in the book, or waits.
    Known,
    // A need of another sheet, a line that comes from none of the needs, or the start or the end struck out.
    Unrelated,
    // The first of the two lines doesn't stand before the second.
    Unordered,
    // More would wait than may, or there would be more changes, lines, needs, adds or kills than may be.
    Full,
    // A change of the book needs it, or it isn't in the book.
    Needed,
    // A line that isn't in the book.
    Missing,
    // The plant's count has come to its end.
    Exhausted,
    // A record of a file that can't follow those before it.
    Misplaced,
}

impl Refusal {
    // The number by which tools know it; where several hold, the lowest is given.
    pub fn number(self) -> u8
        ensures { result ≡ number_of self }
    {
        match self {
            Refusal::Malformed => 1,
            Refusal::Known => 2,
            Refusal::Unrelated => 3,
            Refusal::Unordered => 4,
            Refusal::Full => 5,
            Refusal::Needed => 6,
            Refusal::Missing => 7,
            Refusal::Exhausted => 8,
            Refusal::Misplaced => 9,
        }
    }
}

// What it says to people.
impl fmt::Display for Refusal {
    ghost output = { λ r. Some (words_of r) };

    fn fmt<W: fmt::Write>(&self, f: &mut fmt::Formatter<W>) -> fmt::Result {
        f.write_str(match self {
            Refusal::Malformed => "cut short, too long or not as it should be",
            Refusal::Known => "a change of this name is in the book, or waits",
            Refusal::Unrelated => "a need or a line of another sheet or change",
            Refusal::Unordered => "the first of the two lines doesn't stand before the second",
            Refusal::Full => "more than there may be",
            Refusal::Needed => "it isn't in the book, or another change needs it",
            Refusal::Missing => "there is no such line",
            Refusal::Exhausted => "this plant's names are used up",
            Refusal::Misplaced => "a record that can't follow",
        })
    }
}
