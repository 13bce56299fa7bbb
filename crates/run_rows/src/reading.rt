//! The words of a case's line: numbers, page ids and bytes.

use page_ids::{OutOfMemory, PageId};
use std::alloc::Global;

/// What stands before the first blank, and what stands after it. Where there is no blank, nothing stands after.
pub(crate) fn cut(text: &[u8]) -> (&[u8], &[u8]) {
    for (at, byte) in text.iter().enumerate() {
        if *byte == b' ' {
            return (&text[..at], &text[at + 1..]);
        }
    }
    (text, b"")
}

/// The number that decimal digits write.
pub(crate) fn number(digits: &[u8]) -> Option<u64> {
    if digits.is_empty() {
        return None;
    }
    let mut n = 0u64;
    for digit in digits {
        if !digit.is_ascii_digit() {
            return None;
        }
        n = n.checked_mul(10)?.checked_add(u64::from(*digit - b'0'))?;
    }
    Some(n)
}

/// The same for numbers of 32 bits.
pub(crate) fn number_u32(digits: &[u8]) -> Option<u32> {
    let n = number(digits)?;
    if n <= 0xffff_ffff {
        Some(n as u32)
    } else {
        None
    }
}

/// The numbers that the words write, but for words that write none.
pub(crate) fn numbers(alloc: Global, text: &[u8]) -> Result<Vec<u64>, OutOfMemory> {
    let mut all = Vec::new(alloc);
    for word in text.split(|byte| *byte == b' ') {
        if let Some(n) = number(word) {
            all.push(n)?;
        }
    }
    Ok(all)
}

/// The page of space 0 that `0:P` writes.
pub(crate) fn page(word: &[u8]) -> Option<PageId> {
    match word {
        [b'0', b':', digits @ ..] => {
            let page = number_u32(digits)?;
            Some(PageId { space: 0, page })
        }
        _ => None,
    }
}

/// The value of a hexadecimal digit.
fn digit_of(digit: u8) -> Option<u8> {
    match digit {
        b'0'..=b'9' => Some(digit - b'0'),
        b'a'..=b'f' => Some(digit - b'a' + 10),
        _ => None,
    }
}

/// Appends the bytes that hexadecimal digits write; blanks between them mean nothing.
pub(crate) fn push_bytes(all: &mut Vec<u8>, digits: &[u8]) -> Result<(), OutOfMemory> {
    let mut high = None;
    for digit in digits {
        let Some(low) = digit_of(*digit) else {
            continue;
        };
        match high {
            Some(value) => {
                all.push(low.wrapping_add(value))?;
                high = None;
            }
            None => high = Some(low.wrapping_mul(16)),
        }
    }
    Ok(())
}

/// Puts bytes over those of a page, from this place on. Bytes that don't fit are left out.
fn put_over(page: &mut [u8], at: usize, bytes: &[u8]) {
    if at <= page.len() && bytes.len() <= page.len() - at {
        page[at..at + bytes.len()].copy_from_slice(bytes);
    }
}

/// A page of so many bytes, where words tell places and the bytes from there on, and all else is 0.
pub(crate) fn page_with(alloc: Global, size: usize, parts: &[u8]) -> Result<Vec<u8>, OutOfMemory> {
    let mut page = vec![in alloc; 0; size]?;
    let mut place = None;
    for word in parts.split(|byte| *byte == b' ') {
        match place {
            None => place = number(word),
            Some(at) => {
                let mut bytes = Vec::new(alloc);
                push_bytes(&mut bytes, word)?;
                put_over(page.as_mut_slice(), at as usize, bytes.as_slice());
                place = None;
            }
        }
    }
    Ok(page)
}
