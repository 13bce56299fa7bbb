//! A page's image: what a frame holds of a page.
ghost use Rattle.std.specs.Prelude.{◌≡◌, ◌≤◌, ◌+◌, length, IfOk, replicate, slice_range};
ghost use Rattle.page_ids.specs.Size.{page_bytes};
ghost use Rattle.page_ids.specs.Content.{IsRange, IsBlanked, patched};
ghost use Rattle.page_ids.specs.Layout.{IsContent};

use crate::faults::OutOfMemory;
use crate::ids::PageSize;
use crate::layout::{copy_unstamped, read_u64};
use crate::writing::overwrite;
use std::alloc::Global;
use std::marker::Model;

/// A page in memory: its log sequence number beside its bytes, in which what is stamped on writing
/// (checksums, page number, LSN, space) is 0.
#[derive(Debug, Drop)]
pub struct Image {
    lsn: u64,
    bytes: Vec<u8>,
}

impl Model for Image {
    ghost use Rattle.page_ids.specs.Content.{Content, IsBlanked};

    ghost Value = { Content };

    ghost view = { λ i. record { lsn = i.lsn; bytes = i.bytes.items } };

    ghost invariant = { λ i. IsBlanked i.bytes.items };
}

impl Image {
    /// An image of a page of zeros, with LSN 0.
    pub fn blank(alloc: Global, size: PageSize) -> Result<Image, OutOfMemory>
        ensures { IfOk result (λ image. image ≡ record { lsn = 0; bytes = replicate (page_bytes size) 0 }) }
    {
        let bytes = vec![in alloc; 0; size.bytes() as usize]?;
        Ok(Image { lsn: 0, bytes })
    }

    /// The LSN of the last change of the page (the FIL header's `FIL_PAGE_LSN`).
    pub fn lsn(&self) -> u64
        ensures { result ≡ self.now.lsn }
    {
        self.lsn
    }

    /// How many bytes the page has.
    pub fn size(&self) -> usize
        ensures size { result ≡ length self.now.bytes }
        ensures large { 46 ≤ length self.now.bytes }
    {
        self.bytes.len()
    }

    /// Copies bytes of the body, from `at` on, as many as `out` has. The range lies behind the header of 38 bytes and before the trailer of 8.
    pub fn copy_out(&self, at: u32, out: &mut [u8])
        requires range { IsRange (length self.now.bytes) at (length out.old) }
        ensures { out.new ≡ slice_range self.now.bytes at (at + length out.old) }
    {
        let from = at as usize;
        let to = from + out.len();
        out.copy_from_slice(&self.bytes[from..to]);
    }

    /// Replaces bytes of the body from `at` on, and sets the LSN: that of the change's end in the log
    /// (InnoDB's `mlog_write_string`, and buf0flu's `newest_modification`). The range lies behind the header of 38 bytes and before the trailer of 8.
    pub fn patch(&mut self, at: u32, bytes: &[u8], lsn: u64)
        requires range { IsRange (length self.old.bytes) at (length bytes.now) }
        ensures { self.new ≡ patched self.old at bytes.now lsn }
    {
        overwrite(&mut self.bytes, at as usize, bytes);
        self.lsn = lsn;
    }

    /// Makes the page one of zeros, with this LSN: that of the end of its creation in the log (buf0buf's `buf_page_create`).
    pub fn clear(&mut self, lsn: u64)
        ensures { self.new ≡ record { lsn = lsn; bytes = replicate (length self.old.bytes) 0 } }
    {
        self.bytes.fill(0);
        self.lsn = lsn;
    }

    /// Copies all bytes as they are kept, with 0 for what is stamped.
    pub(crate) fn copy_whole(&self, out: &mut [u8])
        requires { length out.old ≡ length self.now.bytes }
        ensures bytes { out.new ≡ self.now.bytes }
        ensures blanked { IsBlanked self.now.bytes }
    {
        out.copy_from_slice(&self.bytes);
    }

    /// Takes in the bytes of a page of this size.
    pub(crate) fn take_in(&mut self, bytes: &[u8])
        requires { length bytes.now ≡ length self.old.bytes }
        ensures { IsContent bytes.now self.new }
    {
        let _size = self.bytes.len();
        self.lsn = read_u64(bytes, 16);
        copy_unstamped(bytes, &mut self.bytes);
    }
}
