//! Numbers as decimal digits.
ghost use Rattle.std.specs.Prelude.{◌≡◌, ◌≤◌, ◌<◌, ◌^◌, ℕ, IfSome, None};
ghost use Rattle.portmap_command.specs.Numbers.{WritesNumber, WritesWithin, IsWithin};

/// Returns the number that a text writes in 1 to `most` digits. Zeros may lead.
pub fn read_digits(text: &[u8], most: usize) -> Option<u32>
    requires { most ≤ 9 }
    ensures found { IfSome result (λ number. WritesNumber most text.now number) }
    ensures none { result ≡ None → (number : ℕ) → WritesNumber most text.now number → ⊥ }
{
    if text.is_empty() || text.len() > most {
        return None;
    }
    let mut value: u32 = 0;
    for digit in text {
        if *digit < b'0' || *digit > b'9' {
            return None;
        }
        value = value * 10 + u32::from(*digit - b'0');
    }
    Some(value)
}

/// Returns the number that a text writes in 1 to 9 digits, if it is within these bounds.
pub fn read_within(text: &[u8], least: u32, greatest: u32) -> Option<u32>
    ensures found { IfSome result (λ number. WritesWithin least greatest text.now number) }
    ensures none { result ≡ None → (number : ℕ) → WritesWithin least greatest text.now number → ⊥ }
{
    let number = read_digits(text, 9)?;
    (number >= least && number <= greatest).then_some(number)
}

/// Returns the number that a text writes in 1 to 3 digits, if it fits a byte.
pub fn read_byte(text: &[u8]) -> Option<u8>
    ensures found { IfSome result (λ number. WritesNumber 3 text.now number × (number < 2 ^ 8)) }
    ensures none { result ≡ None → (number : ℕ) → WritesNumber 3 text.now number → number < 2 ^ 8 → ⊥ }
{
    u8::try_from(read_digits(text, 3)?).ok()
}
