// Which bytes are the text of a line.
ghost use Rattle.std.specs.Prelude.{◌≡◌};
ghost use Rattle.std.specs.List.{list_all};
ghost use Rattle.change.specs.WellFormed.{is_printable, is_mark, is_text};

pub const TEXT_LIMIT: usize = 120;

fn is_printable(b: u8) -> bool
    ensures { result ≡ is_printable b }
{
    b >= 32 && b <= 126
}

fn all_printable(bytes: &[u8]) -> bool
    ensures { result ≡ list_all is_printable bytes.now }
{
    bytes.iter().all(|b| is_printable(*b))
}

// The marks of a block, which no line's text may be.
fn is_mark(bytes: &[u8]) -> bool
    ensures { result ≡ is_mark bytes.now }
{
    match bytes {
        [a, b] => (*a == b'<' && *b == b'<') || (*a == b'>' && *b == b'>'),
        _ => false,
    }
}

pub fn is_text(bytes: &[u8]) -> bool
    ensures { result ≡ is_text bytes.now }
{
    bytes.len() <= TEXT_LIMIT && all_printable(bytes) && !is_mark(bytes)
}
