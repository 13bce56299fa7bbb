//! The book, and its calls.
ghost use Rattle.std.specs.Prelude.{◌≡◌, ◌+◌, ◌*◌, ◌<◌, ◌≤◌, ◌↔◌, ℕ, [], max, None, Some, IsTrue, IsSome, IfSome, IsOk, IsErrOf, OnOk, OnErr};
ghost use Rattle.frame_book.specs.View.{is_inside, IsInUse, IsAllWithdrawn, IsInOrder, taken, given, grown, withdrawing, undone, finished};
ghost use Rattle.page_ids.specs.FrameLists.{front, no_frames};

use crate::moves::{append_rising, put_back, withdraw_from};
use link_lists::IndexList;
use page_ids::OutOfMemory;
use std::alloc::Global;
use std::marker::Model;

/// Why the chunks stay as they are.
#[derive(Clone, Copy, Debug, PartialEq, Eq)]
pub enum BookErr {
    /// There is no memory for one chunk more.
    OutOfMemory,
    /// The chunks from `from` on are being withdrawn.
    Withdrawing { from: u32 },
    /// There are `chunks` chunks, and these are the most.
    ChunksFull { chunks: u32 },
    /// The first chunk is never withdrawn.
    LastChunk,
}

impl From<OutOfMemory> for BookErr {
    ghost use Rattle.frame_book.specs.declared.book.BookErr.TheVariants.{OutOfMemory};

    ghost from_gives = { λ _ e. e ≡ OutOfMemory };

    fn from(_error: OutOfMemory) -> BookErr {
        BookErr::OutOfMemory
    }
}

/// The frames of an instance's chunks: the free list and the withdraw list (buf0buf's `free` and `withdraw` of a `buf_pool_t`).
///
/// Frame numbers rise through the chunks: chunk k has the frames from k * frames to (k + 1) * frames - 1. A frame that is there and
/// on neither list is in use.
///
/// `take_free` and `give` touch one end of a list each, and need no memory. Beginning a withdrawal touches each free frame once, an
/// undo each withdrawn one; `finish_withdraw` touches none.
#[derive(Debug, Drop)]
pub struct Book {
    /// How many frames a chunk has.
    frames: u32,
    /// The most chunks.
    max: u32,
    chunks: u32,
    /// The first withdrawn chunk, where an area is open.
    area: Option<u32>,
    free: IndexList,
    withdrawn: IndexList,
}

impl Model for Book {
    ghost use Rattle.frame_book.specs.View.{View};

    ghost Value = { View };

    ghost use Rattle.frame_book.specs.Inside.{view_of, IsKept};

    ghost view = { view_of };

    ghost invariant = { IsKept };
}

impl Book {
    /// The book of no chunk. A chunk will have so many frames, and there will be at most `max` chunks.
    pub fn new(alloc: Global, frames: u32, max: u32) -> Book
        requires full { 1 ≤ frames }
        requires few { frames * max ≤ 16384 }
        ensures { result ≡ record { frames = frames; max = max; chunks = 0; area = None; lists = no_frames; room = 0 } }
    {
        Book {
            frames,
            max,
            chunks: 0,
            area: None,
            free: IndexList::new(alloc),
            withdrawn: IndexList::new(alloc),
        }
    }

    /// How many chunks there are.
    pub fn chunks(&self) -> u32
        ensures { result ≡ self.now.chunks }
    {
        self.chunks
    }

    /// The first withdrawn chunk; none where no area is open.
    pub fn area(&self) -> Option<u32>
        ensures { result ≡ self.now.area }
    {
        self.area
    }

    /// The frames on the lists are there, each stands once in both together, and those in the area are the withdrawn ones. Does nothing;
    /// who calls it has this of the lists.
    pub fn stands_in_order(&self)
        ensures { IsInOrder self.now }
    {
        let _chunks = self.chunks;
    }

    /// The first frame of a chunk, and behind the last chunk the first frame that isn't there.
    fn first_of(&self, chunk: u32) -> u32
        requires { chunk ≤ self.now.max }
        ensures { result ≡ chunk * self.now.frames }
    {
        chunk * self.frames
    }

    /// Makes room on both lists for the frames below `frames`. Where there is as much, no memory is taken.
    fn grow(&mut self, frames: u32) -> Result<(), OutOfMemory>
        ensures ok { OnOk result (self.new ≡ record self.old { room = max self.old.room frames }) }
        ensures err { OnErr result (self.new ≡ self.old) }
        ensures had { frames ≤ self.old.room → IsOk result }
    {
        self.free.grow(frames)?;
        self.withdrawn.grow(frames)?;
        Ok(())
    }

    /// Makes room for the frames of so many chunks in all: adding these then needs no memory. There is never less room than before.
    /// Where there is as much, no memory is taken.
    pub fn reserve(&mut self, chunks: u32) -> Result<(), OutOfMemory>
        requires { chunks ≤ self.old.max }
        ensures ok { OnOk result (self.new ≡ record self.old { room = max self.old.room (chunks * self.old.frames) }) }
        ensures err { OnErr result (self.new ≡ self.old) }
        ensures had { chunks * self.old.frames ≤ self.old.room → IsOk result }
    {
        let frames = self.first_of(chunks);
        self.grow(frames)
    }

    /// Adds a chunk, whose frames go to the back of the free list in rising number (buf0buf's `buf_pool_resize`). Takes the memory
    /// that these frames need on either list, where there is no room for them.
    pub fn add_chunk(&mut self) -> Result<(), BookErr>
        ensures ok { OnOk result (self.new ≡ grown self.old) }
        ensures err { OnErr result (self.new ≡ self.old) }
        ensures withdrawing { (from : ℕ) → IsErrOf result (BookErr.Withdrawing from) ↔ (self.old.area ≡ Some from) }
        ensures full { (chunks : ℕ) → IsErrOf result (BookErr.ChunksFull chunks)
            ↔ ((self.old.area ≡ None) × (self.old.chunks ≡ self.old.max) × (self.old.chunks ≡ chunks)) }
        ensures had { self.old.area ≡ None → self.old.chunks < self.old.max → (self.old.chunks + 1) * self.old.frames ≤ self.old.room
            → IsOk result }
        ensures other { ¬ IsErrOf result BookErr.LastChunk }
    {
        if let Some(from) = self.area {
            return Err(BookErr::Withdrawing { from });
        }
        if self.chunks == self.max {
            return Err(BookErr::ChunksFull {
                chunks: self.chunks,
            });
        }
        let first = self.first_of(self.chunks);
        let frames = self.frames;
        self.grow(first + frames)?;
        append_rising(&mut self.free, first, frames);
        self.chunks += 1;
        Ok(())
    }

    /// The frame that `take_free` would take; it stays listed.
    pub fn front(&self) -> Option<u32>
        ensures { result ≡ front self.now.lists.free }
    {
        self.free.front()
    }

    /// Takes the front of the free list; none where it is empty (buf0lru's `buf_LRU_get_free_only`).
    pub fn take_free(&mut self) -> Option<u32>
        ensures front { result ≡ front self.old.lists.free }
        ensures rest { self.new ≡ taken self.old }
        ensures in_use { IfSome result (λ frame. IsInUse self.new frame) }
    {
        self.free.pop_front()
    }

    /// Whether a frame lies in the area.
    fn is_inside(&self, frame: u32) -> bool
        ensures { result ≡ is_inside self.now frame }
    {
        match self.area {
            Some(from) => self.first_of(from) <= frame,
            None => false,
        }
    }

    /// Takes back a frame that was in use: to the back of the free list, or of the withdraw list where it lies in the area
    /// (buf0lru's `buf_LRU_block_free_non_file_page`).
    pub fn give(&mut self, frame: u32)
        requires { IsInUse self.old frame }
        ensures { self.new ≡ given frame self.old }
    {
        if self.is_inside(frame) {
            self.withdrawn.push_back(frame);
        } else {
            self.free.push_back(frame);
        }
    }

    /// Opens the area of all chunks from `from` upwards, whose free frames go to the back of the withdraw list in their order
    /// (buf0buf's `buf_pool_withdraw_blocks`).
    pub fn begin_withdraw(&mut self, from: u32) -> Result<(), BookErr>
        requires { from < self.old.chunks }
        ensures ok { OnOk result (self.new ≡ withdrawing from self.old) }
        ensures err { OnErr result (self.new ≡ self.old) }
        ensures withdrawing { (first : ℕ) → IsErrOf result (BookErr.Withdrawing first) ↔ (self.old.area ≡ Some first) }
        ensures last { IsErrOf result BookErr.LastChunk ↔ ((self.old.area ≡ None) × (from ≡ 0)) }
        ensures begins { self.old.area ≡ None → 1 ≤ from → IsOk result }
    {
        if let Some(from) = self.area {
            return Err(BookErr::Withdrawing { from });
        }
        if from == 0 {
            return Err(BookErr::LastChunk);
        }
        let first = self.first_of(from);
        withdraw_from(&mut self.free, &mut self.withdrawn, first);
        self.area = Some(from);
        Ok(())
    }

    /// Whether an area is open and each of its frames is withdrawn: then as many are withdrawn as the area has.
    pub fn all_withdrawn(&self) -> bool
        ensures { IsTrue result ↔ IsAllWithdrawn self.now }
    {
        match self.area {
            Some(from) => {
                let frames = self.first_of(self.chunks) - self.first_of(from);
                self.withdrawn.len() == frames
            }
            None => false,
        }
    }

    /// Gives the area's chunks up, all of whose frames are withdrawn.
    pub fn finish_withdraw(&mut self)
        requires { IsAllWithdrawn self.old }
        ensures { self.new ≡ finished self.old }
    {
        self.chunks = self.area.unwrap_or(self.chunks);
        self.area = None;
        self.withdrawn.clear();
    }

    /// Closes the area, whose withdrawn frames go to the back of the free list in their order.
    pub fn undo_withdraw(&mut self)
        requires { IsSome self.old.area }
        ensures { self.new ≡ undone self.old }
    {
        put_back(&mut self.free, &mut self.withdrawn);
        self.area = None;
    }
}
