// A change's bytes, written one behind the other.
ghost use Rattle.std.specs.Prelude.{◌≡◌, ◌<◌, ◌++◌, length, OnOk};
ghost use Rattle.change.specs.Bytes.{number_bytes, counted};

use std::alloc::AllocError;

pub fn push_number(out: &mut Vec<u8>, n: u32) -> Result<(), AllocError>
    ensures { OnOk result (out.new.items ≡ out.old.items ++ number_bytes n) }
{
    out.extend_from_slice(&n.to_be_bytes())
}

// How many there are, and these.
pub fn push_numbers(out: &mut Vec<u8>, numbers: &[u32]) -> Result<(), AllocError>
    requires { length numbers.now < 256 }
    ensures { OnOk result (out.new.items ≡ out.old.items ++ counted number_bytes numbers.now) }
{
    out.push(numbers.len() as u8)?;
    for n in numbers {
        push_number(out, *n)?;
    }
    Ok(())
}
