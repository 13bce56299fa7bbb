//! What the lists are made of at the start, and an append where there is room.
ghost use Rattle.std.specs.Prelude.{◌≡◌, ◌<◌, ◌≤◌, ◌+◌, ◌++◌, ◌∷◌, ◌*◌, ◌^◌, [], None, IfOk, vec_len, vec_capacity};
ghost use Rattle.std.specs.VecDeque.{deque_len, deque_capacity};
ghost use Rattle.page_ids.specs.Chunks.{rising};
ghost use Rattle.page_ids.specs.declared.ids.PageId.{PageId};
ghost use Rattle.page_hash.specs.View as hash;

use flush_list::Flush;
use page_hash::PageHash;
use page_ids::OutOfMemory;
use std::alloc::Global;
use std::collections::VecDeque;

/// Appends where there is room.
pub(crate) fn push_kept<T: Drop>(items: &mut Vec<T>, item: T)
    requires { vec_len items.old < vec_capacity items.old }
    ensures items { items.new.items ≡ items.old.items ++ item ∷ [] }
    ensures len { vec_len items.new ≡ vec_len items.old + 1 }
    ensures room { vec_capacity items.old ≤ vec_capacity items.new }
{
    match items.push(item) {
        Ok(()) => (),
        Err(_) => unreachable!(),
    }
}

/// The frames' numbers, rising.
pub(crate) fn free_frames(alloc: Global, frames: u32) -> Result<VecDeque<u32>, OutOfMemory>
    ensures items { IfOk result (λ free. free.items ≡ rising 0 frames) }
    ensures room { IfOk result (λ free. frames ≤ deque_capacity free) }
{
    let mut free = VecDeque::with_capacity(alloc, frames as usize)?;
    for frame in 0..frames {
        free.push_back_reserved(frame);
    }
    Ok(free)
}

/// The flush list of no dirty page, with room for all frames.
pub(crate) fn empty_flush(alloc: Global, frames: u32) -> Result<Flush, OutOfMemory>
    ensures { IfOk result (λ flush. flush ≡ record { listed = []; room = frames }) }
{
    let mut flush = Flush::new(alloc);
    flush.grow(frames)?;
    Ok(flush)
}

/// The page hash of no page, with room for all frames, and cells for twice as many.
pub(crate) fn empty_hash(alloc: Global, frames: u32) -> Result<PageHash, OutOfMemory>
    requires { frames < 2 ^ 31 }
    ensures empty { IfOk result (λ pages. (p : PageId) → hash.home pages p ≡ None) }
    ensures room { IfOk result (λ pages. hash.room pages ≡ frames) }
{
    let mut pages = PageHash::new(alloc, 1)?;
    pages.resize((frames * 2).max(1), frames)?;
    Ok(pages)
}
