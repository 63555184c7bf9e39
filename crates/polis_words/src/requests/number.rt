// Numbers in words.
ghost use Rattle.std.specs.Prelude.{◌≡◌, ◌≢◌, ◌≤◌, ◌<◌, ◌^◌, ℕ, decimal, IfSome, IfNone, unwrap_or};

use polis_base::read_decimal;

// The number, where it is from 1 to `most`.
fn within(n: u64, most: u64) -> Option<u64>
    ensures some { IfSome result (λ m. (m ≡ n) × (1 ≤ n) × (n ≤ most)) }
    ensures none { IfNone result ((m : ℕ) → m ≤ most → 1 ≤ m → n ≢ m) }
{
    if 1 <= n && n <= most { Some(n) } else { None }
}

// The number, where it is at most `most`.
fn at_most(n: u64, most: u64) -> Option<u64>
    ensures some { IfSome result (λ m. (m ≡ n) × (n ≤ most)) }
    ensures none { IfNone result (most < n) }
{
    if n <= most { Some(n) } else { None }
}

/// A number from 1 to `most` in decimal.
pub fn read_number(word: &str, most: u64) -> Option<u64>
    ensures some { IfSome result (λ n. (word.now ≡ decimal n) × (1 ≤ n) × (n ≤ most)) }
    ensures none { IfNone result ((n : ℕ) → n ≤ most → 1 ≤ n → word.now ≢ decimal n) }
{
    match read_decimal(word.as_bytes()) {
        Some(n) => within(n, most),
        None => None,
    }
}

/// A number of at most `most` in decimal.
pub fn read_at_most(word: &str, most: u64) -> Option<u64>
    ensures some { IfSome result (λ n. (word.now ≡ decimal n) × (n ≤ most)) }
    ensures none { IfNone result ((n : ℕ) → n ≤ most → word.now ≢ decimal n) }
{
    match read_decimal(word.as_bytes()) {
        Some(n) => at_most(n, most),
        None => None,
    }
}

/// A number below 2^64 in decimal.
pub fn read_seed(word: &str) -> Option<u64>
    ensures some { IfSome result (λ seed. (word.now ≡ decimal seed) × (seed < 2 ^ 64)) }
    ensures none { IfNone result ((seed : ℕ) → seed < 2 ^ 64 → word.now ≢ decimal seed) }
{
    match read_decimal(word.as_bytes()) {
        Some(seed) => Some(seed),
        None => None,
    }
}

/// The number, or the default where there is none.
pub fn or_else(n: Option<u64>, default: u64) -> u64
    ensures { result ≡ unwrap_or n default }
{
    match n {
        Some(n) => n,
        None => default,
    }
}
