// Lines of a sheet gathered to be shown, with their texts side by side.
// The texts are copied, since a view says what they are, and not where in the store's area they lie.
ghost use Rattle.std.specs.Prelude.{ℕ, List, [], ◌∷◌, ◌++◌, Some, OnOk};
ghost use Rattle.lines.specs.Numbers.{Finds};
ghost use Rattle.display.specs.Gathered.{Gives};

use change::names::Line;
use change::span::Span;
use sheet::line::LineAt;
use std::alloc::{AllocError, Global};

#[derive(Drop)]
pub struct Gathered {
    pub lines: Vec<LineAt>,
    pub texts: Vec<u8>,
}

impl Gathered {
    pub fn new(heap: Global) -> Gathered
        ensures { (ns : List ℕ) → Gives ns result [] }
    {
        Gathered {
            lines: Vec::new(heap),
            texts: Vec::new(heap),
        }
    }

    // One line more, by its number, its slot and its text.
    pub fn push(&mut self, line: u32, slot: usize, text: &[u8]) -> Result<(), AllocError>
        ensures { OnOk result ((ns : List ℕ) (ps : List (ℕ × List ℕ)) → Gives ns self.old ps → Finds ns line (Some slot) → Gives ns self.new (ps ++ (line, text.now) ∷ [])) }
    {
        let span = Span {
            start: self.texts.len(),
            len: text.len(),
        };
        self.texts.extend_from_slice(text)?;
        let line = LineAt {
            number: Line(line),
            slot,
            text: span,
        };
        self.lines.push(line)?;
        Ok(())
    }
}
