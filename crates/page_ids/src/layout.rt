//! The layout of a page on disk, on reading: InnoDB's FIL header of 38 bytes, the body, the FIL trailer of 8 bytes.
//!
//! Numbers are big-endian. The page number stands at 4, the LSN at 16, the space at 34, and the low half of the LSN again in the last 4 bytes.
//! Both checksums are not looked at.
ghost use Rattle.std.specs.Prelude.{◌≡◌, ◌⊎◌, ◌<◌, ◌≤◌, ◌+◌, ◌↔◌, ℕ, length, OnOk, OnErr, IsOk, IfErr, IsTrue, slice_index, EachIndex, if◌then◌else◌};
ghost use Rattle.page_ids.specs.Content.{is_stamped};
ghost use Rattle.page_ids.specs.Layout.{IsPage, IsBlank, IsSound, u32_at, u64_at};
ghost use Rattle.page_ids.specs.Refusal.{IsBadPage};

use crate::ids::PageId;
use crate::image::Image;

/// Why bytes are no page of an id: the first of these that is so, with what was found.
#[derive(Clone, Copy, Debug, PartialEq, Eq)]
pub enum BadPage {
    /// Another page number stands in the header.
    Number { found: u32 },
    /// Another space stands in the header.
    Space { found: u32 },
    /// The low half of the LSN differs between header and trailer: the page was written in part.
    Torn { head: u32, tail: u32 },
}

/// The number in four bytes.
pub(crate) fn read_u32(bytes: &[u8], at: usize) -> u32
    requires { at + 4 ≤ length bytes.now }
    ensures { result ≡ u32_at bytes.now at }
{
    u32::from_be_bytes([bytes[at], bytes[at + 1], bytes[at + 2], bytes[at + 3]])
}

/// The number in eight bytes.
pub(crate) fn read_u64(bytes: &[u8], at: usize) -> u64
    requires { at + 8 ≤ length bytes.now }
    ensures { result ≡ u64_at bytes.now at }
{
    u64::from_be_bytes([
        bytes[at],
        bytes[at + 1],
        bytes[at + 2],
        bytes[at + 3],
        bytes[at + 4],
        bytes[at + 5],
        bytes[at + 6],
        bytes[at + 7],
    ])
}

fn is_blank(bytes: &[u8]) -> bool
    ensures { IsTrue result ↔ IsBlank bytes.now }
{
    bytes.iter().all(|byte| *byte == 0)
}

/// Clears the bytes from one place up to another.
fn clear(bytes: &mut [u8], from: usize, to: usize)
    requires { (from ≤ to) × (to ≤ length bytes.old) }
    ensures cleared { (k : ℕ) → from ≤ k → k < to → slice_index bytes.new k ≡ 0 }
    ensures others { (k : ℕ) → k < from ⊎ to ≤ k → slice_index bytes.new k ≡ slice_index bytes.old k }
{
    bytes[from..to].fill(0);
}

/// Copies the bytes of a page, and clears what is stamped among them: checksum and number, LSN, space, trailer.
pub(crate) fn copy_unstamped(bytes: &[u8], out: &mut [u8])
    requires large { 46 ≤ length bytes.now }
    requires size { length out.old ≡ length bytes.now }
    ensures { EachIndex bytes.now (λ k. slice_index out.new k ≡ (if is_stamped (length bytes.now) k then 0 else slice_index bytes.now k)) }
{
    let size = bytes.len();
    out.copy_from_slice(bytes);
    clear(out, 0, 8);
    clear(out, 16, 24);
    clear(out, 34, 38);
    clear(out, size - 8, size);
}

/// Whether the bytes are a page of this id, and else why not.
fn judge(page: PageId, bytes: &[u8]) -> Result<(), BadPage>
    requires { 46 ≤ length bytes.now }
    ensures exact { IsOk result ↔ IsSound page bytes.now }
    ensures bad { IfErr result (IsBadPage page bytes.now) }
{
    if is_blank(bytes) {
        return Ok(());
    }
    let number = read_u32(bytes, 4);
    if number != page.page {
        return Err(BadPage::Number { found: number });
    }
    let space = read_u32(bytes, 34);
    if space != page.space {
        return Err(BadPage::Space { found: space });
    }
    let head = read_u32(bytes, 20);
    let tail = read_u32(bytes, bytes.len() - 4);
    if head != tail {
        return Err(BadPage::Torn { head, tail });
    }
    Ok(())
}

/// Reads the bytes of a page of this id into an image of its size.
///
/// A page of zeros is one, whatever its id. After a refusal the image is as it was (buf0buf's checks in `buf_page_io_complete`).
pub fn decode(page: PageId, bytes: &[u8], into: &mut Image) -> Result<(), BadPage>
    requires { length bytes.now ≡ length into.old.bytes }
    ensures exact { IsOk result ↔ IsSound page bytes.now }
    ensures ok { OnOk result (IsPage page bytes.now into.new) }
    ensures err { OnErr result (into.new ≡ into.old) }
    ensures bad { IfErr result (IsBadPage page bytes.now) }
{
    let _size = into.size();
    judge(page, bytes)?;
    into.take_in(bytes);
    Ok(())
}
