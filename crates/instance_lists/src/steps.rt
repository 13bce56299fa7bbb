//! The steps of an entry on single lists: a frame is taken, given back or listed, a page becomes dirty or clean.
ghost use Rattle.std.specs.Prelude.{◌≡◌, ◌<◌, ◌≤◌, ◌++◌, Some, None, IsSome, length, drop, take, set};
ghost use Rattle.std.specs.VecDeque.{deque_capacity};
ghost use Rattle.trail.specs.Book.{is_late};
ghost use Rattle.flush_list.specs.View.{IsNew, IsNewest, Has};
ghost use Rattle.midpoint_lru.specs.View as order;
ghost use Rattle.instance_lists.specs.KeptLists.{in_turn, own_hand, others_hand, turned, newest_in, after_change, after_write, after_making};

use flush_list::Flush;
use midpoint_lru::Lru;
use std::collections::VecDeque;
use trail::{Call, Cause, Hand};

/// Whether the refusal of a call may come behind the call's frame.
pub(crate) fn is_late(call: &Call, cause: &Cause) -> bool
    ensures { result ≡ is_late call.now cause.now }
{
    matches!(
        (call, cause),
        (
            Call::Fix { .. },
            Cause::DiskFault { .. } | Cause::BadPage(_)
        ) | (
            Call::Create { .. },
            Cause::DiskFault { .. } | Cause::LogSpent { .. }
        )
    )
}

/// The next frame is taken: the one in hand, or else the first free one.
pub(crate) fn take_next(hand: &mut Option<Hand>, free: &mut VecDeque<u32>)
    ensures hand { hand.new ≡ None }
    ensures free { free.new.items ≡ drop 1 (in_turn hand.old free.old.items) }
    ensures room { deque_capacity free.new ≡ deque_capacity free.old }
{
    if hand.is_some() {
        *hand = None;
    } else {
        let _ = free.pop_front();
    }
}

/// The frame that the call took, or would have taken, goes to the back of the free list. One in another call's hand stays there.
pub(crate) fn give_next(hand: &mut Option<Hand>, free: &mut VecDeque<u32>, caller: u32, number: u32)
    requires room { length (in_turn hand.old free.old.items) ≤ deque_capacity free.old }
    ensures hand { hand.new ≡ others_hand caller number hand.old }
    ensures free { free.new.items ≡ turned (in_turn (own_hand caller number hand.old) free.old.items) }
    ensures room { deque_capacity free.new ≡ deque_capacity free.old }
{
    if let Some(held) = *hand {
        if held.caller == caller && held.number == number {
            *hand = None;
            free.push_back_reserved(held.frame);
            return;
        }
    }
    if !free.is_empty() {
        free.rotate_left(1);
    }
}

/// The page that was made in the frame is listed as one that was read in, and is touched at this moment.
pub(crate) fn list_made(lru: &mut Lru, frame: u32, now: u64)
    requires { order.IsNew lru.old frame }
    ensures { lru.new ≡ after_making frame now lru.old }
{
    lru.read_in(frame);
    let _ = lru.touch(frame, now);
}

/// The page in the frame was changed: one that is dirty keeps its place and its oldest LSN, another one comes to the head
/// (buf0flu's `buf_flush_note_modification`). Takes no memory.
pub(crate) fn soil(
    flush: &mut Flush,
    newest: &mut Vec<Option<u64>>,
    frame: u32,
    start: u64,
    end: u64,
)
    requires frame { frame < length newest.old.items }
    requires new { newest_in newest.old.items frame ≡ None → IsNew flush.old frame }
    requires latest { IsNewest start flush.old.listed }
    ensures flush { flush.new ≡ after_change frame start (newest_in newest.old.items frame) flush.old }
    ensures newest { newest.new.items ≡ set newest.old.items frame (Some end) }
{
    if newest[frame as usize].is_none() {
        flush.add(frame, start);
    }
    newest[frame as usize] = Some(end);
}

/// The page in the frame was written, and is clean.
pub(crate) fn clean(flush: &mut Flush, newest: &mut Vec<Option<u64>>, frame: u32)
    requires frame { frame < length newest.old.items }
    requires listed { IsSome (newest_in newest.old.items frame) → Has flush.old frame }
    ensures flush { flush.new ≡ after_write frame (newest_in newest.old.items frame) flush.old }
    ensures newest { newest.new.items ≡ set newest.old.items frame None }
{
    if newest[frame as usize].is_some() {
        flush.remove(frame);
    }
    newest[frame as usize] = None;
}
