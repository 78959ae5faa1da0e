// Refusals: the number for tools, then words for people.
ghost use Rattle.std.specs.Prelude.{◌≡◌, [], ◌++◌, OnOk};
ghost use Rattle.answers.specs.Lines.{spaced, refused_line};

use change::names::Name;
use change::refusal::Refusal;
use std::alloc::AllocError;

// What is refused stands behind the number.
fn refused_about(out: &mut Vec<u8>, refusal: Refusal, about: &str) -> Result<(), AllocError>
    ensures { OnOk result (out.new.items ≡ out.old.items ++ refused_line refusal about.now) }
{
    let number = refusal.number();
    let line = format!(in *out.allocator(); "refused {number}{about}: {refusal}\n")?;
    out.extend_from_slice(line.as_bytes())?;
    Ok(())
}

pub fn refused(out: &mut Vec<u8>, refusal: Refusal) -> Result<(), AllocError>
    ensures { OnOk result (out.new.items ≡ out.old.items ++ refused_line refusal []) }
{
    refused_about(out, refusal, "")
}

pub fn refused_name(out: &mut Vec<u8>, refusal: Refusal, name: Name) -> Result<(), AllocError>
    ensures { OnOk result (out.new.items ≡ out.old.items ++ refused_line refusal (spaced name.0)) }
{
    let name = name.0;
    let about = format!(in *out.allocator(); " {name}")?;
    refused_about(out, refusal, about.as_str())?;
    Ok(())
}
