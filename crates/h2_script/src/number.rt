//! Numbers in scripts and commands. The definitions are in `h2_spec`, specs/Texts/Assemble.antt, under the same names.

ghost use Rattle.std.specs.Prelude.{◌≡◌, ◌≤◌, ◌&&◌, nat_le, nat_lt, length, IfSome};
ghost use Rattle.h2_spec.specs.Texts.Assemble.{number_at, scanned};

/// The number that at most ten decimal digits write.
fn digits_at(text: &[u8]) -> Option<u64>
    requires { length text.now ≤ 10 }
    ensures { result ≡ scanned 0 text.now }
{
    let mut number = 0;
    for digit in text {
        if *digit < b'0' {
            return None;
        }
        if *digit > b'9' {
            return None;
        }
        number = number * 10 + u64::from(*digit - b'0');
    }
    Some(number)
}

/// The number that 1 to 10 decimal digits write, if it is at most `most`; `None` for any other text.
pub fn number_at(most: u32, text: &[u8]) -> Option<u32>
    ensures value { result ≡ number_at most text.now }
    ensures small { IfSome result (λ n. n ≤ most) }
{
    if !has_few_octets(text) {
        return None;
    }
    let number = digits_at(text)?;
    if number <= u64::from(most) {
        Some(number as u32)
    } else {
        None
    }
}

/// Whether a text has 1 to 10 octets.
fn has_few_octets(text: &[u8]) -> bool
    ensures { result ≡ (nat_lt 0 (length text.now) && nat_le (length text.now) 10) }
{
    !text.is_empty() && text.len() <= 10
}
