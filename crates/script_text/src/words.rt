//! The words of a line: page ids and bytes, each in its one spelling.
ghost use Rattle.std.specs.Prelude.{◌≡◌, ◌<◌, IfOk, IfSome};
ghost use Rattle.script_text.specs.Reading.{page_of, range_of, hex_digit, byte_of, hex_of};

use page_ids::numerals::{cut, number_u32};
use page_ids::{Bytes, PageId};
use std::alloc::{AllocError, Global};

/// The page id that a word `SPACE:PAGE` writes.
pub fn page(word: &[u8]) -> Option<PageId>
    ensures { result ≡ page_of word.now }
{
    let (space, page) = cut(b':', word)?;
    let space = number_u32(space)?;
    let page = number_u32(page)?;
    Some(PageId { space, page })
}

/// The pages that a word `SPACE:FIRST-LAST` writes: the first, and the number of the last.
#[tactic(auto, unfolding(crate::specs::Reading::range_of))]
pub fn range(word: &[u8]) -> Option<(PageId, u32)>
    ensures { result ≡ range_of word.now }
{
    let (first, last) = cut(b'-', word)?;
    let from = page(first)?;
    let last = number_u32(last)?;
    Some((from, last))
}

/// What a lower-case hexadecimal digit stands for.
fn hex_digit(digit: u8) -> Option<u8>
    ensures reads { result ≡ hex_digit digit }
    ensures small { IfSome result (λ n. n < 16) }
{
    match digit {
        b'0'..=b'9' => Some(digit - b'0'),
        b'a'..=b'f' => Some(digit - b'a' + 10),
        _ => None,
    }
}

/// The byte that two digits write, the high one first.
fn byte(first: u8, second: u8) -> Option<u8>
    ensures { result ≡ byte_of first second }
{
    let high = hex_digit(first)?;
    let low = hex_digit(second)?;
    Some(high * 16 + low)
}

/// The bytes that a word writes, two lower-case hexadecimal digits for each.
pub fn bytes(alloc: Global, word: &[u8]) -> Result<Option<Bytes>, AllocError>
    ensures { IfOk result (λ bytes. bytes ≡ hex_of word.now) }
{
    let mut bytes = Vec::new(alloc);
    let mut rest = word;
    while let [first, second, others @ ..] = rest {
        let Some(byte) = byte(*first, *second) else {
            return Ok(None);
        };
        bytes.push(byte)?;
        rest = others;
    }
    if rest.is_empty() {
        Ok(Some(Bytes::of(bytes)))
    } else {
        Ok(None)
    }
}
