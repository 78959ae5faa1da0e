// Bytes as hexadecimal digits, two a byte, the high one first.
ghost use Rattle.std.specs.Prelude.{◌≡◌, ℕ, ◌<◌, List, [], ◌∷◌, ◌++◌, IfOk, string_bytes, MatchOption, OnOk, ◌≢◌};
ghost use Rattle.std.specs.Char.{to_ascii_lowercase, digit_char};
ghost use Rattle.console.specs.Hex.{byte_digits, hex_of, AreBytes, Spells};

use std::alloc::{AllocError, Global};

// The digit that counts this much, in lower case.
fn digit_of(value: u8) -> char
    requires { value < 16 }
    ensures { result ≡ digit_char value }
{
    char::from_digit(u32::from(value), 16).unwrap()
}

fn push_byte(digits: &mut String, b: u8) -> Result<(), AllocError>
    ensures { OnOk result (string_bytes digits.new ≡ string_bytes digits.old ++ byte_digits b) }
{
    digits.push(digit_of(b / 16))?;
    digits.push(digit_of(b % 16))?;
    Ok(())
}

// The digits of these bytes, in lower case.
pub fn to_hex(heap: Global, bytes: &[u8]) -> Result<String, AllocError>
    ensures { IfOk result (λ s. string_bytes s ≡ hex_of bytes.now) }
{
    let mut digits = String::new(heap);
    for b in bytes {
        push_byte(&mut digits, *b)?;
    }
    Ok(digits)
}

// What a digit of either case counts.
fn value_of(digit: u8) -> Option<u8>
    ensures { MatchOption result ((d : ℕ) → d < 16 → to_ascii_lowercase digit ≢ digit_char d) (λ d. (d < 16) × (to_ascii_lowercase digit ≡ digit_char d)) }
{
    Some(char::from(digit).to_digit(16)? as u8)
}

// The byte of two digits.
fn byte_of(high: u8, low: u8) -> Option<u8>
    ensures { MatchOption result ((b : ℕ) → b < 256 → to_ascii_lowercase high ∷ to_ascii_lowercase low ∷ [] ≢ byte_digits b) (λ b. to_ascii_lowercase high ∷ to_ascii_lowercase low ∷ [] ≡ byte_digits b) }
{
    let high = value_of(high)?;
    let low = value_of(low)?;
    Some(high * 16 + low)
}

// The bytes that these digits are, of either case: none where their count is odd or one is no digit.
pub fn from_hex(heap: Global, digits: &str) -> Result<Option<Vec<u8>>, AllocError>
    ensures { IfOk result (λ o. MatchOption o ((bytes : List ℕ) → AreBytes bytes → Spells digits.now bytes → ⊥) (λ v. AreBytes v.items × Spells digits.now v.items)) }
{
    let mut bytes = Vec::new(heap);
    let (pairs, rest) = digits.as_bytes().as_chunks::<2>();
    for [high, low] in pairs {
        let Some(b) = byte_of(*high, *low) else {
            return Ok(None);
        };
        bytes.push(b)?;
    }
    if rest.is_empty() {
        Ok(Some(bytes))
    } else {
        Ok(None)
    }
}
