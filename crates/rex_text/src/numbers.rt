//! Reading words as numbers, unsigned and signed.

ghost use Rattle.std.specs.Prelude.{◌≡◌, ◌+◌, ◌-◌, ◌*◌, ◌^◌, ◌<◌, ◌≤◌, ◌⊎◌, IfNone, IfSome, SomeIff, negsuc};
ghost use Rattle.std.specs.Char.{IsAsciiDigit, digit_value};
ghost use Rattle.rex_text.specs.Numbers.{i64_at, u64_at};

/// The number that a word spells: `0`, or digits that do not begin with `0`, below 2^64.
pub fn read_u64(word: &[u8]) -> Option<u64>
    ensures { result ≡ u64_at word.now }
{
    if word.is_empty() {
        return None;
    }
    if word[0] == b'0' && word.len() > 1 {
        return None;
    }
    let mut number: u64 = 0;
    for byte in word {
        number = with_digit(number, *byte)?;
    }
    Some(number)
}

// The number with the byte behind it, if the byte is a digit and the number then fits 64 bits.
fn with_digit(number: u64, byte: u8) -> Option<u64>
    ensures { SomeIff result (IsAsciiDigit byte × (number * 10 + digit_value byte < 2 ^ 64)) (number * 10 + digit_value byte) }
{
    if !byte.is_ascii_digit() {
        return None;
    }
    number.checked_mul(10)?.checked_add(u64::from(byte - b'0'))
}

/// The signed number that a word spells, from -2^63 to 2^63 - 1: as for [`read_u64`], but `-` may
/// stand before digits that do not begin with `0`.
pub fn read_i64(word: &[u8]) -> Option<i64>
    ensures { result ≡ i64_at word.now }
{
    if !word.is_empty() && word[0] == b'-' {
        return below_zero(read_u64(&word[1..])?);
    }
    i64::try_from(read_u64(word)?).ok()
}

// The number that lies this far below 0, if it does lie below 0 and fits 64 bits.
fn below_zero(distance: u64) -> Option<i64>
    ensures number { IfSome result (λ z. z ≡ negsuc (distance - 1)) }
    ensures fits { IfSome result (λ _. (0 < distance) × (distance ≤ 2 ^ 63)) }
    ensures none { IfNone result ((distance ≡ 0) ⊎ (2 ^ 63 < distance)) }
{
    if distance == 0 || distance > 1 << 63 {
        return None;
    }
    let above = (distance - 1) as i64;
    Some(-above - 1)
}
