// A change that was made: its name, and the numbers of its lines.
ghost use Rattle.std.specs.Prelude.{◌≡◌, ◌≤◌, true, ◌++◌, OnOk};
ghost use Rattle.change.specs.WellFormed.{is_name};
ghost use Rattle.answers.specs.Lines.{spaced, made_line};

use change::names::Name;
use std::alloc::AllocError;

// A space and a number.
fn spaced_number(out: &mut Vec<u8>, number: u32) -> Result<(), AllocError>
    ensures { OnOk result (out.new.items ≡ out.old.items ++ spaced number) }
{
    let digits = format!(in *out.allocator(); " {number}")?;
    out.extend_from_slice(digits.as_bytes())?;
    Ok(())
}

// So many lines of this change are new.
pub fn made_change(out: &mut Vec<u8>, name: Name, count: usize) -> Result<(), AllocError>
    requires name { is_name name.0 ≡ true }
    requires few { count ≤ 64 }
    ensures { OnOk result (out.new.items ≡ out.old.items ++ made_line name.0 count) }
{
    out.extend_from_slice(b"made")?;
    spaced_number(out, name.0)?;
    for place in 0..count {
        spaced_number(out, name.0 * 64 + place as u32)?;
    }
    out.push(b'\n')?;
    Ok(())
}
