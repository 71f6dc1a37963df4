//! Words that stand for themselves, and numbers as decimal texts.
ghost use Rattle.std.specs.Prelude.{◌≡◌, ◌<◌, ◌≤◌, ◌^◌, ◌-◌, ◌↔◌, ℕ, IfSome, IfNone, IsTrue, length, take, min, decimal};
ghost use Rattle.std.specs.List.{prefix_len};
ghost use Rattle.std.specs.Char.{is_ascii_digit};
ghost use Rattle.std.specs.Str.Parse.{digits_value};

use itoa::Buffer;

/// Whether a word is this one, octet for octet.
pub fn is_word(word: &[u8], name: &[u8]) -> bool
    ensures { IsTrue result ↔ (word.now ≡ name.now) }
{
    word == name
}

/// The number below 2^64 that a word writes in decimal digits, without sign and without leading
/// zeros.
pub fn read_decimal(word: &[u8]) -> Option<u64>
    ensures found { IfSome result (λ n. word.now ≡ decimal n) }
    ensures none { IfNone result ((n : ℕ) → n < 2 ^ 64 → word.now ≡ decimal n → ⊥) }
{
    if digit_count(word) < word.len() {
        return None;
    }
    let value = clipped_value(word);
    if !is_decimal(value, word) {
        return None;
    }
    Some(value)
}

/// How many digits a word begins with.
pub fn digit_count(word: &[u8]) -> usize
    ensures count { result ≡ prefix_len is_ascii_digit word.now }
    ensures bound { result ≤ length word.now }
{
    word.iter()
        .take_while(|octet| octet.is_ascii_digit())
        .count()
}

/// The number that the digits write, or `u64::MAX` where that is more.
fn clipped_value(word: &[u8]) -> u64
    requires { length word.now ≤ prefix_len is_ascii_digit word.now }
    ensures { result ≡ min (digits_value 10 word.now) (2 ^ 64 - 1) }
{
    let mut value: u64 = 0;
    for digit in word {
        value = value
            .saturating_mul(10)
            .saturating_add(u64::from(digit.saturating_sub(b'0')));
    }
    value
}

fn is_decimal(n: u64, digits: &[u8]) -> bool
    ensures { IsTrue result ↔ (digits.now ≡ decimal n) }
{
    let mut buffer = Buffer::new();
    buffer.format(n).as_bytes() == digits
}
