// Decimal numbers as a line has them: no sign, no leading zero.
ghost use Rattle.std.specs.Prelude.{◌≡◌, ℕ, ◌^◌, ◌<◌, decimal, MatchOption, ◌≢◌};

use change::names::Plant;

// The number that this word is, exactly as it is written.
pub fn number(word: &str) -> Option<u32>
    ensures { MatchOption result ((n : ℕ) → n < 2 ^ 32 → word.now ≢ decimal n) (λ n. word.now ≡ decimal n) }
{
    let bytes = word.as_bytes();
    // `parse` would take a sign or a leading zero.
    if bytes.len() > 1 && bytes[0] < b'1' {
        return None;
    }
    word.parse::<u32>().ok()
}

// The plant that this word names, by its number.
pub fn plant(word: &str) -> Option<Plant>
    ensures { MatchOption result ((n : ℕ) → n < 16 → word.now ≢ decimal n) (λ p. word.now ≡ decimal p.number) }
{
    let Ok(n) = u8::try_from(number(word)?) else {
        return None;
    };
    Plant::new(n)
}
