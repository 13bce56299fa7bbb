//! The layout of a page on disk, on writing: an image's bytes, and what is stamped among them.
//!
//! Page number, LSN, space and checksums are filled in where the image keeps 0. No checksum is made: both fields have
//! the value that InnoDB writes there under `innodb_checksum_algorithm=none`.
ghost use Rattle.std.specs.Prelude.{◌≡◌, ◌⊎◌, ◌<◌, ◌≤◌, ◌+◌, ◌-◌, ◌++◌, ℕ, List, All, length, slice_index, take, drop, false};
ghost use Rattle.page_ids.specs.Content.{Content, is_stamped};
ghost use Rattle.page_ids.specs.Layout.{IsPage, IsWritten, IsSummed, u32_at, u64_at};
ghost use Rattle.page_ids.specs.declared.ids.PageId.{PageId};

use crate::ids::PageId;
use crate::image::Image;
use crate::layout::read_u32;

/// What stands in place of a checksum (InnoDB's `BUF_NO_CHECKSUM_MAGIC`).
const NO_CHECKSUM: u32 = 0xDEAD_BEEF;

/// Puts a piece over the bytes that stand at a place.
pub(crate) fn overwrite(bytes: &mut [u8], at: usize, piece: &[u8])
    requires { at + length piece.now ≤ length bytes.old }
    ensures { bytes.new ≡ take at bytes.old ++ piece.now ++ drop (at + length piece.now) bytes.old }
{
    let to = at + piece.len();
    bytes[at..to].copy_from_slice(piece);
}

/// Writes a number over four bytes (InnoDB's `mach_write_to_4`).
fn write_u32(out: &mut [u8], at: usize, number: u32)
    requires { at + 4 ≤ length out.old }
    ensures number { u32_at out.new at ≡ number }
    ensures others { (k : ℕ) → k < at ⊎ at + 4 ≤ k → slice_index out.new k ≡ slice_index out.old k }
{
    overwrite(out, at, &number.to_be_bytes());
}

/// Writes a number over eight bytes (InnoDB's `mach_write_to_8`).
fn write_u64(out: &mut [u8], at: usize, number: u64)
    requires { at + 8 ≤ length out.old }
    ensures number { u64_at out.new at ≡ number }
    ensures others { (k : ℕ) → k < at ⊎ at + 8 ≤ k → slice_index out.new k ≡ slice_index out.old k }
{
    overwrite(out, at, &number.to_be_bytes());
}

/// Stamps page number, LSN and space, and in the trailer the low half of the LSN again.
fn stamp_id(page: PageId, lsn: u64, out: &mut [u8])
    requires { 46 ≤ length out.old }
    ensures written { IsWritten page out.new }
    ensures lsn { u64_at out.new 16 ≡ lsn }
    ensures others { (k : ℕ) → is_stamped (length out.old) k ≡ false → slice_index out.new k ≡ slice_index out.old k }
{
    write_u32(out, 4, page.page);
    write_u64(out, 16, lsn);
    write_u32(out, 34, page.space);
    let low = read_u32(out, 20);
    write_u32(out, out.len() - 4, low);
}

/// Stamps both checksum fields. No other byte changes.
fn stamp_checksums(out: &mut [u8])
    requires { 46 ≤ length out.old }
    ensures sums { IsSummed out.new }
    ensures others { (k : ℕ) → (4 ≤ k × k < length out.old - 8) ⊎ length out.old - 4 ≤ k
        → slice_index out.new k ≡ slice_index out.old k }
{
    write_u32(out, 0, NO_CHECKSUM);
    write_u32(out, out.len() - 8, NO_CHECKSUM);
}

/// Writes the image as a page of this id: its bytes, with page number, space, the image's LSN and its low half, and
/// 0xDEADBEEF for both checksums (buf0flu's `buf_flush_init_for_writing`). `out` has the image's size.
///
/// [`decode`](crate::decode) gives the image again.
pub fn encode(page: PageId, image: &Image, out: &mut [u8])
    requires size { length out.old ≡ length image.now.bytes }
    ensures page { IsPage page out.new image.now }
    ensures lsn { u64_at out.new 16 ≡ image.now.lsn }
    ensures size { length out.new ≡ length image.now.bytes }
    ensures sums { IsSummed out.new }
{
    image.copy_whole(out);
    stamp_id(page, image.lsn(), out);
    stamp_checksums(out);
}

/// The bytes of a page have one image.
///
/// A law, as the next one is.
pub fn a_page_has_one_image()
    ensures { (p : PageId) (bytes : List ℕ) (a b : Content) → IsPage p bytes a → IsPage p bytes b → a ≡ b }
{}

/// An image has one page of an id among those whose checksum fields are stamped: the one that [`encode`] writes.
pub fn an_image_has_one_page()
    ensures { (p : PageId) (a b : List ℕ) (image : Content) → All (λ byte. byte < 256) a → All (λ byte. byte < 256) b
        → IsSummed a → IsSummed b → IsPage p a image → IsPage p b image → a ≡ b }
{}
