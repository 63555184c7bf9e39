// Numbers in decimal digits.
ghost use Rattle.std.specs.Prelude.{◌≡◌, ◌≢◌, ◌<◌, ◌≤◌, ◌^◌, ℕ, IfSome, IfNone, decimal};
ghost use Rattle.std.specs.List.{list_all};
ghost use Rattle.polis_base.specs.Digits.{is_digit, is_plain, number_of};

/// A byte `0` to `9`.
pub(crate) const fn is_digit(byte: u8) -> bool
    ensures { result ≡ is_digit byte }
{
    matches!(byte, b'0'..=b'9')
}

fn all_digits(bytes: &[u8]) -> bool
    ensures { result ≡ list_all is_digit bytes.now }
{
    bytes.iter().all(|byte| is_digit(*byte))
}

// Digits with no zero at the start, or `0` alone.
fn is_plain(text: &[u8]) -> bool
    ensures { result ≡ is_plain text.now }
{
    match text.split_first() {
        Some((first, rest)) => all_digits(text) && (*first != b'0' || rest.is_empty()),
        None => false,
    }
}

/// The number that decimal digits write. None exactly where it is greater than `max`.
pub(crate) fn number_up_to(max: u64, digits: &[u8]) -> Option<u64>
    ensures some { IfSome result (λ n. n ≡ number_of digits.now) }
    ensures within { IfSome result (λ n. n ≤ max) }
    ensures none { IfNone result (max < number_of digits.now) }
{
    let mut number: u64 = 0;
    for digit in digits {
        number = number
            .checked_mul(10)?
            .checked_add(u64::from(digit.saturating_sub(b'0')))?;
        if number > max {
            return None;
        }
    }
    Some(number)
}

/// The number of a decimal text. None exactly where the text is not the decimal text of a number
/// below 2^64: digits with no sign and no leading zero.
pub fn read_decimal(text: &[u8]) -> Option<u64>
    ensures some { IfSome result (λ n. text.now ≡ decimal n) }
    ensures none { IfNone result ((n : ℕ) → n < 2 ^ 64 → text.now ≢ decimal n) }
{
    if is_plain(text) {
        number_up_to(u64::MAX, text)
    } else {
        None
    }
}
