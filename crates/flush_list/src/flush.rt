//! The list, and its calls.
ghost use Rattle.std.specs.Prelude.{◌≡◌, ◌==◌, ◌+◌, ◌<◌, ◌≤◌, ℕ, [], ◌∷◌, All, max, length, slice_index, IfSome, IsOk, OnOk, OnErr};
ghost use Rattle.std.specs.Option.{option_map};
ghost use Rattle.flush_list.specs.View.{Has, IsNew, IsNewest, IsInOrder, place_of, without, relocated, tail_of, next_up};

use link_lists::IndexList;
use page_ids::OutOfMemory;
use std::alloc::Global;
use std::marker::Model;

/// The frames of an instance's dirty pages, the head first (buf0flu's `flush_list`).
///
/// A frame is a number below the room; an LSN counts bytes of the log, 0 to 2^64 - 1. No call but `grow` takes memory, and none
/// walks the list.
#[derive(Debug, Drop)]
pub struct Flush {
    list: IndexList,
    /// For each frame below the room, the LSN at which its page's first change that isn't on the disk starts. It is read only
    /// where the frame is listed.
    oldest: Vec<u64>,
}

impl Model for Flush {
    ghost use Rattle.flush_list.specs.View.{View};

    ghost Value = { View };

    ghost use Rattle.flush_list.specs.Inside.{view_of, IsKept};

    ghost view = { view_of };

    ghost invariant = { IsKept };
}

/// Makes place for an oldest LSN of each frame below `frames`. Where there is as much, no memory is taken.
fn lengthen(oldest: &mut Vec<u64>, frames: u32) -> Result<(), OutOfMemory>
    ensures long { OnOk result (frames ≤ length oldest.new.items) }
    ensures longer { length oldest.old.items ≤ length oldest.new.items }
    ensures kept { (k : ℕ) → k < length oldest.old.items → slice_index oldest.new.items k ≡ slice_index oldest.old.items k }
    ensures had { frames ≤ length oldest.old.items → IsOk result }
{
    if oldest.len() < frames as usize {
        oldest.resize(frames as usize, 0)?;
    }
    Ok(())
}

impl Flush {
    /// The empty list, with room for no frame.
    pub fn new(alloc: Global) -> Flush
        ensures { result ≡ record { listed = []; room = 0 } }
    {
        Flush {
            list: IndexList::new(alloc),
            oldest: Vec::new(alloc),
        }
    }

    /// Makes room for the frames below `frames`. There is never less room than before. Where there is as much, no memory is taken.
    pub fn grow(&mut self, frames: u32) -> Result<(), OutOfMemory>
        ensures ok { OnOk result (self.new ≡ record self.old { room = max self.old.room frames }) }
        ensures err { OnErr result (self.new ≡ self.old) }
        ensures had { frames ≤ self.old.room → IsOk result }
    {
        self.list.stands_in_order();
        lengthen(&mut self.oldest, frames)?;
        self.list.grow(frames)?;
        Ok(())
    }

    /// How many frames are listed.
    pub fn len(&self) -> u32
        ensures len { result ≡ length self.now.listed }
        ensures few { result ≤ self.now.room }
    {
        self.list.stands_in_order();
        self.list.len()
    }

    /// Each frame is listed once, only those below the room are, and the oldest LSNs don't rise from the head to the tail
    /// (buf0flu's `buf_flush_validate`). Does nothing; who calls it has this of the list.
    pub fn stands_in_order(&self)
        ensures { IsInOrder self.now }
    {
        self.list.stands_in_order();
    }

    /// Puts a frame in at the head, whose page became dirty by a change that starts at the LSN `oldest`
    /// (buf0flu's `buf_flush_insert_into_flush_list`). No listed page has a later one; an equal one may stand there. Touches
    /// the frame and the head.
    pub fn add(&mut self, frame: u32, oldest: u64)
        requires new { IsNew self.old frame }
        requires newest { IsNewest oldest self.old.listed }
        ensures { self.new ≡ record self.old { listed = record { frame = frame; oldest = oldest } ∷ self.old.listed } }
    {
        self.oldest[frame as usize] = oldest;
        self.list.push_front(frame);
    }

    /// Takes out a frame whose page was written (buf0flu's `buf_flush_remove`). Touches the frame and its neighbours.
    pub fn remove(&mut self, frame: u32)
        requires { Has self.old frame }
        ensures { self.new ≡ record self.old { listed = without frame self.old.listed } }
    {
        self.list.stands_in_order();
        self.list.remove(frame);
    }

    /// Puts the frame `new` in the place of `old`, whose page moved there. It has the oldest LSN that `old` had
    /// (buf0flu's `buf_flush_relocate_on_flush_list`). Touches both frames and the neighbours.
    pub fn relocate(&mut self, old: u32, new: u32)
        requires listed { Has self.old old }
        requires new { IsNew self.old new }
        ensures { self.new ≡ record self.old { listed = relocated old new self.old.listed } }
    {
        self.list.stands_in_order();
        let oldest = self.oldest[old as usize];
        self.oldest[new as usize] = oldest;
        self.list.replace(old, new);
    }

    /// The frame at the tail, whose page is dirty since the oldest change; none where the list is empty. A flush begins there
    /// (buf0flu's `buf_do_flush_list_batch`).
    pub fn tail(&self) -> Option<u32>
        ensures tail { result ≡ option_map (λ x. x.frame) (tail_of self.now.listed) }
        ensures last { IfSome result (λ frame. place_of frame self.now.listed + 1 ≡ length self.now.listed) }
    {
        self.list.stands_in_order();
        self.list.back()
    }

    /// The frame next to one towards the head, which stands one place before it; none in front of the head.
    /// It is read of the frame itself.
    pub fn before(&self, frame: u32) -> Option<u32>
        requires { Has self.now frame }
        ensures next { result ≡ option_map (λ x. x.frame) (next_up frame self.now.listed) }
        ensures step { IfSome result (λ next. place_of next self.now.listed + 1 ≡ place_of frame self.now.listed) }
    {
        self.list.stands_in_order();
        self.list.prev(frame)
    }

    /// The oldest LSN of all that are listed, in bytes of the log: the tail's; none where the list is empty
    /// (buf0buf's `buf_pool_get_oldest_modification_approx`, which looks at the tail of each instance).
    pub fn oldest(&self) -> Option<u64>
        ensures oldest { result ≡ option_map (λ x. x.oldest) (tail_of self.now.listed) }
        ensures least { IfSome result (λ lsn. All (λ x. lsn ≤ x.oldest) self.now.listed) }
    {
        self.list.stands_in_order();
        let tail = self.list.back()?;
        Some(self.oldest[tail as usize])
    }
}
