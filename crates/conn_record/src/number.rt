//! Numbers as text.
ghost use Rattle.std.specs.Prelude.{◌≡◌, ◌++◌, ◌∷◌, ◌<◌, ◌^◌, ◌≤◌, ℕ, List, length, IfSome, IfNone, decimal};

use kj_base::{digit_count, read_decimal};

// The number at the front, without leading zeros, which a LF follows, and what follows the LF.
pub(crate) fn read_number(octets: &[u8]) -> Option<(u64, &[u8])>
    ensures found { IfSome result (λ r. octets.now ≡ decimal r.0 ++ 10 ∷ r.1.now) }
    ensures fits { IfSome result (λ r. r.0 < 2 ^ 64) }
    ensures none { IfNone result ((n : ℕ) (rest : List ℕ) → n < 2 ^ 64
        → octets.now ≡ decimal n ++ 10 ∷ rest → ⊥) }
{
    let len = digit_count(octets);
    if len == octets.len() {
        return None;
    }
    if octets[len] != b'\n' {
        return None;
    }
    let Some(n) = read_decimal(&octets[..len]) else {
        return None;
    };
    Some((n, &octets[len + 1..]))
}
