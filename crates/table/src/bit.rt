// One bit of a byte.
ghost use Rattle.std.specs.Prelude.{◌≡◌, ℕ, ◌<◌, if◌then◌else◌, nat_eq};
ghost use Rattle.table.specs.Cells.{bit};

pub fn has(byte: u8, k: usize) -> bool
    requires { k < 8 }
    ensures { result ≡ bit byte k }
{
    (byte >> k) & 1 == 1
}

// The byte with bit `k` made `on`, and its other bits as they were.
pub fn with(byte: u8, k: usize, on: bool) -> u8
    requires { k < 8 }
    ensures { (m : ℕ) → m < 8 → bit result m ≡ (if nat_eq m k then on else bit byte m) }
{
    if on {
        byte | (1 << k)
    } else {
        byte & !(1 << k)
    }
}
