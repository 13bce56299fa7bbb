//! Numbers in text, each in its one decimal spelling: no sign, and no leading zero.
ghost use Rattle.std.specs.Prelude.{◌≡◌, ◌+◌, ◌^◌, ◌≤◌, ◌==◌, Some, None, IfSome, MatchOption};
ghost use Rattle.std.specs.List.{position_or_len};
ghost use Rattle.page_ids.specs.Numerals.{digits_after, number_of, cut_at};

/// The number that digits write, where it is at most `max`.
fn digits(max: u64, text: &[u8]) -> Option<u64>
    ensures reads { result ≡ digits_after (max + 1) 0 text.now }
    ensures small { IfSome result (λ n. n ≤ max) }
{
    let mut n = 0u64;
    for c in text {
        if !c.is_ascii_digit() {
            return None;
        }
        n = n.checked_mul(10)?.checked_add(u64::from(*c - b'0'))?;
        if n > max {
            return None;
        }
    }
    Some(n)
}

/// The number that a word writes, where it is at most `max`: no sign, and no leading zero.
pub fn number(max: u64, word: &[u8]) -> Option<u64>
    ensures reads { result ≡ number_of (max + 1) word.now }
    ensures small { IfSome result (λ n. n ≤ max) }
{
    match word {
        [] => None,
        [b'0', _, ..] => None,
        _ => digits(max, word),
    }
}

/// The same for numbers of 32 bits.
pub fn number_u32(word: &[u8]) -> Option<u32>
    ensures { result ≡ number_of (2 ^ 32) word.now }
{
    let n = number(0xffff_ffff, word)?;
    Some(n as u32)
}

/// How many bytes stand before the first such byte.
fn place(byte: u8, text: &[u8]) -> usize
    ensures { result ≡ position_or_len (λ b. b == byte) text.now }
{
    for (i, b) in text.iter().enumerate() {
        if *b == byte {
            return i;
        }
    }
    text.len()
}

/// What stands before the first such byte, and what stands after it.
pub fn cut(byte: u8, text: &[u8]) -> Option<(&[u8], &[u8])>
    ensures { MatchOption result
        (cut_at byte text.now ≡ None)
        (λ r. cut_at byte text.now ≡ Some (r.0.now, r.1.now)) }
{
    let at = place(byte, text);
    if at < text.len() {
        Some((&text[..at], &text[at + 1..]))
    } else {
        None
    }
}
