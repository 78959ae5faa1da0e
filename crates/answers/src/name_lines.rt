// A word of what became of a change, and its name.
ghost use Rattle.std.specs.Prelude.{◌≡◌, ◌++◌, codes, OnOk};
ghost use Rattle.answers.specs.Lines.{name_line};

use change::names::Name;
use std::alloc::AllocError;

pub fn word_and_name(out: &mut Vec<u8>, word: &str, name: Name) -> Result<(), AllocError>
    ensures { OnOk result (out.new.items ≡ out.old.items ++ name_line word.now name.0) }
{
    let name = name.0;
    let line = format!(in *out.allocator(); "{word} {name}\n")?;
    out.extend_from_slice(line.as_bytes())?;
    Ok(())
}

// A change is taken back.
pub fn back(out: &mut Vec<u8>, name: Name) -> Result<(), AllocError>
    ensures { OnOk result (out.new.items ≡ out.old.items ++ name_line (codes "back") name.0) }
{
    word_and_name(out, "back", name)
}

// A change brought a line.
pub fn brought(out: &mut Vec<u8>, name: Name) -> Result<(), AllocError>
    ensures { OnOk result (out.new.items ≡ out.old.items ++ name_line (codes "brought") name.0) }
{
    word_and_name(out, "brought", name)
}

// A change struck a line out.
pub fn struck(out: &mut Vec<u8>, name: Name) -> Result<(), AllocError>
    ensures { OnOk result (out.new.items ≡ out.old.items ++ name_line (codes "struck") name.0) }
{
    word_and_name(out, "struck", name)
}
