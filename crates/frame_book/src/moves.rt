//! How frames come to the lists and go from one to the other.
ghost use Rattle.std.specs.Prelude.{◌≡◌, ◌+◌, ◌<◌, ◌≤◌, ◌^◌, ◌++◌, ◌∷◌, ℕ, List, not, [], filter, nat_le};
ghost use Rattle.link_lists.specs.Grid.{times};
ghost use Rattle.page_ids.specs.Chunks.{rising};
ghost use Rattle.page_ids.specs.FrameLists as rule;
ghost use Rattle.frame_book.specs.Inside.{lists_of};
ghost use Rattle.frame_book.specs.Moves.{CanMove};

use link_lists::IndexList;

/// Puts so many frames at the back of a list, rising from the first. Touches them and the last one.
pub(crate) fn append_rising(list: &mut IndexList, first: u32, frames: u32)
    requires fits { first + frames ≤ list.old.room }
    requires bounded { first + frames < 2 ^ 32 }
    requires away { (f : ℕ) → first ≤ f → times f list.old.items ≡ 0 }
    ensures { list.new ≡ record list.old { items = list.old.items ++ rising first frames } }
{
    for i in 0..frames {
        list.push_back(first + i);
    }
}

/// Takes the front of the free list to the back of the withdraw list where it is `first` or above, and else to its own back.
fn turn(free: &mut IndexList, withdrawn: &mut IndexList, first: u32)
    requires { CanMove free.old withdrawn.old }
    ensures turned { (x : ℕ) (rest : List ℕ) → free.old.items ≡ x ∷ rest → lists_of free.new withdrawn.new
        ≡ rule.given (nat_le first x) x (record { free = rest; withdrawn = withdrawn.old.items }) }
    ensures still { CanMove free.new withdrawn.new }
    ensures rooms { (free.new.room ≡ free.old.room) × (withdrawn.new.room ≡ withdrawn.old.room) }
{
    if let Some(frame) = free.pop_front() {
        if first <= frame {
            withdrawn.push_back(frame);
        } else {
            free.push_back(frame);
        }
    }
}

/// Moves the free frames from the first upwards to the back of the withdraw list, in their order. Turns the free list once: it
/// touches each free frame.
pub(crate) fn withdraw_from(free: &mut IndexList, withdrawn: &mut IndexList, first: u32)
    requires { CanMove free.old withdrawn.old }
    ensures moved { lists_of free.new withdrawn.new ≡ rule.withdrawing first (lists_of free.old withdrawn.old) }
    ensures rooms { (free.new.room ≡ free.old.room) × (withdrawn.new.room ≡ withdrawn.old.room) }
{
    for i in 0..free.len() {
        turn(free, withdrawn, first);
    }
}

/// Takes the front of the withdraw list to the back of the free list.
fn free_one(free: &mut IndexList, withdrawn: &mut IndexList)
    requires { CanMove withdrawn.old free.old }
    ensures moved { (x : ℕ) (rest : List ℕ) → withdrawn.old.items ≡ x ∷ rest
        → lists_of free.new withdrawn.new ≡ record { free = free.old.items ++ x ∷ []; withdrawn = rest } }
    ensures still { CanMove withdrawn.new free.new }
    ensures rooms { (free.new.room ≡ free.old.room) × (withdrawn.new.room ≡ withdrawn.old.room) }
{
    if let Some(frame) = withdrawn.pop_front() {
        free.push_back(frame);
    }
}

/// Puts the withdrawn frames at the back of the free list, in their order. Touches each of them.
pub(crate) fn put_back(free: &mut IndexList, withdrawn: &mut IndexList)
    requires { CanMove withdrawn.old free.old }
    ensures moved { lists_of free.new withdrawn.new ≡ rule.undone (lists_of free.old withdrawn.old) }
    ensures rooms { (free.new.room ≡ free.old.room) × (withdrawn.new.room ≡ withdrawn.old.room) }
{
    for i in 0..withdrawn.len() {
        free_one(free, withdrawn);
    }
}
