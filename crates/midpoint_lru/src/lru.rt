//! The list, and its calls.
ghost use Rattle.std.specs.Prelude.{◌≡◌, ◌==◌, ◌+◌, ◌<◌, ◌≤◌, ◌^◌, ℕ, not, nat_lt, if◌then◌else◌, max, length, slice_get, Some, IfSome, IsOk, OnOk, OnErr};
ghost use Rattle.page_ids.specs.Midpoint as rule;
ghost use Rattle.page_ids.specs.Midpoint.{Listed};
ghost use Rattle.midpoint_lru.specs.View.{Has, IsNew, place_up_to, next_up};
ghost use Rattle.midpoint_lru.specs.Sublists.{listed_as};

use crate::sublists::{Member, Sublists};
use page_ids::OutOfMemory;
use std::alloc::Global;
use std::marker::Model;

/// What a touch did.
#[derive(Clone, Copy, Debug, PartialEq, Eq)]
pub enum Touch {
    /// The frame keeps its place.
    Stayed,
    /// It stands at the head.
    Young,
}

/// The frames of an instance's resident pages, the head first (buf0lru's `LRU` list).
///
/// No call but `grow` takes memory, and each touches the named frames and their neighbours. The old length moves by one at
/// most, and with it one frame beside the first old one. It jumps only where the list reaches `min` or falls below: then the
/// old sublist is set up from the tail, or given up, and each of its frames is touched once.
#[derive(Debug, Drop)]
pub struct Lru {
    parts: Sublists,
    evicts: u64,
    pct: u32,
    time: u64,
    min: u32,
}

impl Model for Lru {
    ghost use Rattle.midpoint_lru.specs.View.{View};

    ghost Value = { View };

    ghost use Rattle.midpoint_lru.specs.Inside.{view_of, IsKept};

    ghost view = { view_of };

    ghost invariant = { IsKept };
}

impl Lru {
    /// The empty list. The old sublist has `pct` percent of a list of at least `min` frames, 0 to 100, and none of a shorter one;
    /// a page stays old for `time` milliseconds after its first access.
    pub fn new(alloc: Global, pct: u32, time: u64, min: u32) -> Lru
        requires { pct ≤ 100 }
        ensures { result ≡
            record { numbers = record { pct = pct; time = time; min = min }; order = rule.empty_order; room = 0 } }
    {
        Lru {
            parts: Sublists::new(alloc),
            evicts: 0,
            pct,
            time,
            min,
        }
    }

    /// Makes room for the frames below `frames`. There is never less room than before. Where there is as much, no memory is taken.
    pub fn grow(&mut self, frames: u32) -> Result<(), OutOfMemory>
        ensures ok { OnOk result (self.new ≡ record self.old { room = max self.old.room frames }) }
        ensures err { OnErr result (self.new ≡ self.old) }
        ensures had { frames ≤ self.old.room → IsOk result }
    {
        self.parts.grow(frames)?;
        Ok(())
    }

    /// How many frames are listed.
    pub fn len(&self) -> u32
        ensures len { result ≡ length self.now.order.listed }
        ensures few { result ≤ self.now.room }
    {
        self.parts.len()
    }

    /// Whether a touch at the moment `now` moves a frame of which this is kept to the head (buf0buf's `buf_page_peek_if_too_old`).
    fn moves(&self, member: Member, now: u64) -> bool
        ensures { (i : ℕ) (x : Listed ℕ) → member.first ≡ x.first → member.since ≡ x.since
            → member.is_old ≡ not (nat_lt i (rule.young_length self.now.numbers (length self.now.order.listed)))
            → result ≡ rule.moves self.now.numbers now self.now.order i x }
    {
        if member.is_old {
            self.time == 0 || has_waited(self.time, member.first, now)
        } else {
            let young = self.parts.len() - self.parts.old_len();
            u64::from(young) <= 4 * self.evicts.saturating_sub(member.since)
        }
    }

    /// What is kept of a frame, and whether a touch at the moment `now` moves it to the head.
    fn judge(&self, frame: u32, now: u64) -> (Member, bool)
        requires { Has self.now frame }
        ensures found { slice_get self.now.order.listed (rule.place_of ◌==◌ frame self.now.order.listed)
            ≡ Some (listed_as frame result.0) }
        ensures moves { result.1 ≡ rule.moves self.now.numbers now self.now.order (rule.place_of ◌==◌ frame self.now.order.listed)
            (listed_as frame result.0) }
    {
        let member = self.parts.member(frame);
        (member, self.moves(member, now))
    }

    /// Puts in a frame whose page was read in or created: at the midpoint (buf0lru's `buf_LRU_add_block`).
    pub fn read_in(&mut self, frame: u32)
        requires { IsNew self.old frame }
        ensures { self.new ≡ record self.old { order = rule.read_in self.old.numbers frame self.old.order } }
    {
        self.parts.put_between(frame, self.evicts);
        let old = old_length(self.pct, self.min, self.parts.len());
        self.parts.settle(old);
    }

    /// Touches a frame at the moment `now`, in milliseconds, and answers whether that moved it to the head
    /// (buf0buf's `buf_page_make_young_if_needed`).
    pub fn touch(&mut self, frame: u32, now: u64) -> Touch
        requires { Has self.old frame }
        ensures order { self.new ≡ record self.old { order = rule.touch ◌==◌ self.old.numbers frame now self.old.order } }
        ensures answer { result ≡
            (if rule.becomes_young ◌==◌ self.old.numbers frame now self.old.order then Touch.Young else Touch.Stayed) }
    {
        let (member, moves) = self.judge(frame, now);
        let first = Some(member.first.unwrap_or(now));
        if moves {
            self.parts.take(frame);
            self.parts.put_first(frame, first, self.evicts);
            let old = old_length(self.pct, self.min, self.parts.len());
            self.parts.settle(old);
            Touch::Young
        } else {
            self.parts.set_first(frame, first);
            Touch::Stayed
        }
    }

    /// Takes out a frame whose page is evicted, and counts one eviction (buf0lru's `buf_LRU_remove_block`).
    pub fn remove(&mut self, frame: u32)
        requires listed { Has self.old frame }
        requires few { self.old.order.evicts < 2 ^ 48 }
        ensures { self.new ≡ record self.old { order = rule.evict ◌==◌ frame self.old.order } }
    {
        self.parts.take(frame);
        self.evicts += 1;
        let old = old_length(self.pct, self.min, self.parts.len());
        self.parts.settle(old);
    }

    /// Puts the frame `new` in the place of `old`, whose page moved there (buf0buf's `buf_relocate`).
    pub fn relocate(&mut self, old: u32, new: u32)
        requires listed { Has self.old old }
        requires new { IsNew self.old new }
        ensures { self.new ≡ record self.old { order = rule.relocate ◌==◌ old new self.old.order } }
    {
        self.parts.replace(old, new);
    }

    /// The tail, or the frame next to `after` towards the head, which stands one place before it. A search for a victim goes so
    /// (buf0lru's `buf_LRU_free_from_common_LRU_list`).
    pub fn walk(&self, after: Option<u32>) -> Option<u32>
        requires { IfSome after (λ frame. Has self.now frame) }
        ensures next { result ≡ next_up after self.now.order.listed }
        ensures step { IfSome result (λ frame.
            rule.place_of ◌==◌ frame self.now.order.listed + 1 ≡ place_up_to after self.now.order.listed) }
    {
        self.parts.walk(after)
    }
}

/// Whether so much time has passed since a first access.
fn has_waited(time: u64, first: Option<u64>, now: u64) -> bool
    ensures { result ≡ rule.has_waited time first now }
{
    match first {
        None => false,
        Some(first) => first <= now && time <= now - first,
    }
}

/// How many of so many frames are old (buf0lru's `buf_LRU_old_adjust_len`).
fn old_length(pct: u32, min: u32, len: u32) -> u32
    requires { pct ≤ 100 }
    ensures old { (time : ℕ) → result ≡ rule.old_length (record { pct = pct; time = time; min = min }) len }
    ensures within { result ≤ len }
{
    if min <= len {
        (u64::from(len) * u64::from(pct) / 100) as u32
    } else {
        0
    }
}
