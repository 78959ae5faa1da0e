// Why bytes could not be read.

#[derive(Clone, Copy, Debug, PartialEq, Eq)]
pub enum Fault {
    // The bytes end inside a number or a text, and all before it was right.
    CutShort,
    // A number or a text that is whole is wrong.
    Malformed,
}
