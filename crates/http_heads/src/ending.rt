//! Where a head or a section can end, so that it is read only when it may be whole.
ghost use Rattle.std.specs.Prelude.{◌≡◌, ℕ, ◌≤◌, ◌<◌, ◌++◌, true, false, length, IfSome, IfNone};
ghost use Rattle.http_heads.specs.Ending.{line_end_start, ends_empty_line, ends_lines, is_plain, stops_line};
ghost use Rattle.http_heads.specs.Heads.{StartsWithHead};
ghost use Rattle.http_heads.specs.Section.{StartsWithSection};
ghost use Rattle.http_heads.specs.declared.field.Field.{Field};
ghost use Rattle.http_heads.specs.declared.field.Head.{Head};
ghost use Rattle.std.specs.Prelude.{List};

// Where the line end begins whose LF stands at k.
fn line_end_start(bytes: &[u8], k: usize) -> usize
    requires { k < length bytes.now }
    ensures start { result ≡ line_end_start bytes.now k }
    ensures bound { result ≤ k }
{
    if k == 0 {
        return k;
    }
    if bytes[k - 1] == b'\r' { k - 1 } else { k }
}

fn ends_empty_line(bytes: &[u8], k: usize) -> bool
    requires { k < length bytes.now }
    ensures { result ≡ ends_empty_line bytes.now k }
{
    if bytes[k] != b'\n' {
        return false;
    }
    let start = line_end_start(bytes, k);
    if start == 0 {
        return true;
    }
    bytes[start - 1] == b'\n'
}

fn ends_lines(bytes: &[u8], k: usize) -> bool
    requires { k < length bytes.now }
    ensures { result ≡ ends_lines bytes.now k }
{
    if bytes[k] != b'\n' {
        return false;
    }
    let start = line_end_start(bytes, k);
    if start == 0 {
        return false;
    }
    if bytes[start - 1] != b'\n' {
        return false;
    }
    let before = line_end_start(bytes, start - 1);
    if before == 0 {
        return false;
    }
    bytes[before - 1] != b'\n'
}

/// Whether an octet from the given one on ends an empty line, as the last of a section does.
pub fn brings_section(bytes: &[u8], from: usize) -> bool
    ensures some { result ≡ true
        → (k : ℕ) × (from ≤ k) × (k < length bytes.now) × (ends_empty_line bytes.now k ≡ true) }
    ensures none { result ≡ false
        → (k : ℕ)
        → from ≤ k
        → k < length bytes.now
        → ends_empty_line bytes.now k ≡ false }

    // Where none does, a section that stands at the front ended before.
    ensures later { result ≡ false
        → (fields : List Field) (len : ℕ) (rest : List ℕ)
        → StartsWithSection bytes.now fields len rest
        → len ≤ from }
{
    for k in from..bytes.len() {
        if ends_empty_line(bytes, k) {
            return true;
        }
    }
    false
}

/// Whether an octet from the given one on ends an empty line behind a line that has octets, as the
/// last of a head does.
pub fn brings_head(bytes: &[u8], from: usize) -> bool
    ensures some { result ≡ true
        → (k : ℕ) × (from ≤ k) × (k < length bytes.now) × (ends_lines bytes.now k ≡ true) }
    ensures none { result ≡ false
        → (k : ℕ)
        → from ≤ k
        → k < length bytes.now
        → ends_lines bytes.now k ≡ false }

    // Where none does, a head that stands at the front ended before.
    ensures later { result ≡ false
        → (head : Head) (len : ℕ)
        → StartsWithHead bytes.now head len
        → len ≤ from }
{
    for k in from..bytes.len() {
        if ends_lines(bytes, k) {
            return true;
        }
    }
    false
}

fn is_plain(octet: u8) -> bool
    ensures { result ≡ is_plain octet }
{
    octet > 31 || octet == b'\r'
}

fn stops_line(bytes: &[u8], k: usize) -> bool
    requires { k < length bytes.now }
    ensures { result ≡ stops_line bytes.now k }
{
    if bytes[k] != b'\n' {
        return !is_plain(bytes[k]);
    }
    let start = line_end_start(bytes, k);
    if start == 0 {
        return false;
    }
    bytes[start - 1] != b'\n'
}

/// Where, from the given octet on, the first line of a head that has octets ends, or first has a
/// control octet, which can be in none.
pub fn first_stop(bytes: &[u8], from: usize) -> Option<usize>
    ensures stops { IfSome result
        (λ k. (from ≤ k) × (k < length bytes.now) × (stops_line bytes.now k ≡ true)) }
    ensures first { IfSome result
        (λ k. (j : ℕ) → from ≤ j → j < k → stops_line bytes.now j ≡ false) }
    ensures none { IfNone result
        ((k : ℕ) → from ≤ k → k < length bytes.now → stops_line bytes.now k ≡ false) }
{
    for k in from..bytes.len() {
        if stops_line(bytes, k) {
            return Some(k);
        }
    }
    None
}

/// More octets change no stop.
pub fn stop_stays()
    ensures { (bytes more : List ℕ) (k : ℕ)
        → k < length bytes
        → stops_line (bytes ++ more) k ≡ stops_line bytes k }
{}

/// The first line of a head stops.
pub fn head_has_stop()
    ensures { (bytes : List ℕ) (head : Head) (len : ℕ)
        → StartsWithHead bytes head len
        → (k : ℕ) × (k < len) × (stops_line bytes k ≡ true) }
{}
