// Bytes as a line of hexadecimal digits.
ghost use Rattle.std.specs.Prelude.{◌≡◌, ◌++◌, OnOk};
ghost use Rattle.answers.specs.Lines.{hex_line};

use console::hex::to_hex;
use std::alloc::AllocError;

pub fn digits(out: &mut Vec<u8>, bytes: &[u8]) -> Result<(), AllocError>
    ensures { OnOk result (out.new.items ≡ out.old.items ++ hex_line bytes.now) }
{
    let digits = to_hex(*out.allocator(), bytes)?;
    out.extend_from_slice(digits.as_bytes())?;
    out.push(b'\n')?;
    Ok(())
}
