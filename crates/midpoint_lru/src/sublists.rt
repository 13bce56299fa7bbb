//! The list in its two sublists: the young frames, and behind them the old ones. How many are old is moved by neighbours.
ghost use Rattle.std.specs.Prelude.{◌≡◌, ◌==◌, ◌+◌, ◌-◌, ◌<◌, ◌≤◌, ◌++◌, [], ◌∷◌, ℕ, List, length, max, not, nat_lt, insert, remove, slice_get, slice_set, None, Some, IfSome, IsOk, OnOk, OnErr, if◌then◌else◌};
ghost use Rattle.std.specs.Option.{option_map};
ghost use Rattle.link_lists.specs.Chains.{first, last};
ghost use Rattle.page_ids.specs.Midpoint.{Listed, place_of};
ghost use Rattle.midpoint_lru.specs.View.{place_up_to, next_up};
ghost use Rattle.midpoint_lru.specs.Sublists.{member_of, listed_as};
ghost use Rattle.midpoint_lru.specs.Parts.{IsIn, IsOut, young, old_without, instead};

use link_lists::IndexList;
use page_ids::OutOfMemory;
use std::alloc::Global;
use std::marker::Model;

/// What is kept of a listed frame.
#[derive(Clone, Copy, Debug)]
pub(crate) struct Member {
    /// The moment of its page's first access, in milliseconds.
    pub(crate) first: Option<u64>,
    /// How many evictions there had been when it was put in or last moved to the head.
    pub(crate) since: u64,
    /// Whether it is in the old sublist.
    pub(crate) is_old: bool,
}

/// The listed frames, the young ones first: one index list, of which the first old frame is known.
#[derive(Debug, Drop)]
pub(crate) struct Sublists {
    list: IndexList,
    /// How many frames are old.
    old_len: u32,
    first_old: Option<u32>,
    /// By the frames' numbers; read only where a frame is listed.
    members: Vec<Member>,
}

impl Model for Sublists {
    ghost use Rattle.midpoint_lru.specs.Parts.{Parts};

    ghost Value = { Parts };

    ghost use Rattle.midpoint_lru.specs.Sublists.{parts_of, IsKept};

    ghost view = { parts_of };

    ghost invariant = { IsKept };
}

impl Sublists {
    pub(crate) fn new(alloc: Global) -> Sublists
        ensures { result ≡ record { listed = []; old_len = 0; room = 0 } }
    {
        Sublists {
            list: IndexList::new(alloc),
            old_len: 0,
            first_old: None,
            members: Vec::new(alloc),
        }
    }

    /// Makes room for the frames below `frames`. Where there is as much, no memory is taken.
    pub(crate) fn grow(&mut self, frames: u32) -> Result<(), OutOfMemory>
        ensures ok { OnOk result (self.new ≡ record self.old { room = max self.old.room frames }) }
        ensures err { OnErr result (self.new ≡ self.old) }
        ensures had { frames ≤ self.old.room → IsOk result }
    {
        lengthen(&mut self.members, frames)?;
        self.list.grow(frames)?;
        Ok(())
    }

    /// How many frames are listed.
    pub(crate) fn len(&self) -> u32
        ensures len { result ≡ length self.now.listed }
        ensures few { result ≤ self.now.room }
    {
        self.list.stands_in_order();
        self.list.len()
    }

    /// How many of them are old.
    pub(crate) fn old_len(&self) -> u32
        ensures old { result ≡ self.now.old_len }
        ensures within { result ≤ length self.now.listed }
    {
        self.old_len
    }

    /// What is kept of a listed frame.
    pub(crate) fn member(&self, frame: u32) -> Member
        requires { IsIn self.now frame }
        ensures found { slice_get self.now.listed (place_of ◌==◌ frame self.now.listed)
            ≡ Some (listed_as frame result) }
        ensures old { result.is_old ≡ not (nat_lt (place_of ◌==◌ frame self.now.listed) (young self.now)) }
    {
        self.members[frame as usize]
    }

    /// Puts a frame in at the head; it is young. Touches the frame and the head.
    pub(crate) fn put_first(&mut self, frame: u32, first: Option<u64>, since: u64)
        requires { IsOut self.old frame }
        ensures { self.new ≡ record self.old { listed = record { key = frame; first = first; since = since } ∷ self.old.listed } }
    {
        self.members[frame as usize] = Member {
            first,
            since,
            is_old: false,
        };
        self.list.push_front(frame);
        self.list.stands_in_order();
    }

    /// Puts a frame in before the first old one; it is young. Touches the frame and its neighbours.
    fn put_last_young(&mut self, frame: u32, since: u64)
        requires out { IsOut self.old frame }
        requires some { 0 < self.old.old_len }
        ensures { self.new ≡ record self.old {
          listed = insert self.old.listed (young self.old)
              (record { key = frame; first = None; since = since });
        } }
    {
        self.members[frame as usize] = Member {
            first: None,
            since,
            is_old: false,
        };
        match self.first_old {
            Some(at) => self.list.insert_before(at, frame),
            None => unreachable!(),
        }
        self.list.stands_in_order();
    }

    /// Puts a frame in before the first old one, or at the head where none is old; it is young.
    pub(crate) fn put_between(&mut self, frame: u32, since: u64)
        requires { IsOut self.old frame }
        ensures { self.new ≡ record self.old {
          listed = insert self.old.listed (if self.old.old_len == 0 then 0 else young self.old)
              (record { key = frame; first = None; since = since });
        } }
    {
        if self.old_len() == 0 {
            self.put_first(frame, None, since);
        } else {
            self.put_last_young(frame, since);
        }
    }

    /// Takes a frame out. Touches it and its neighbours.
    pub(crate) fn take(&mut self, frame: u32)
        requires { IsIn self.old frame }
        ensures { self.new ≡ record self.old {
          listed = remove self.old.listed (place_of ◌==◌ frame self.old.listed);
          old_len = old_without self.old (place_of ◌==◌ frame self.old.listed);
        } }
    {
        let next = self.list.next(frame);
        self.first_old = instead(self.first_old, frame, next);
        self.old_len -= u32::from(self.members[frame as usize].is_old);
        self.list.remove(frame);
        self.list.stands_in_order();
    }

    /// Puts `new` in the place of `old`, with all that is kept of it. Touches both frames and the neighbours.
    pub(crate) fn replace(&mut self, old: u32, new: u32)
        requires listed { IsIn self.old old }
        requires room { new < self.old.room }
        requires away { ¬ IsIn self.old new }
        ensures { (x : Listed ℕ) → slice_get self.old.listed (place_of ◌==◌ old self.old.listed) ≡ Some x
            → self.new ≡ record self.old {
              listed = slice_set self.old.listed (place_of ◌==◌ old self.old.listed)
                  (record { key = new; first = x.first; since = x.since });
            } }
    {
        let member = self.members[old as usize];
        self.members[new as usize] = member;
        self.first_old = instead(self.first_old, old, Some(new));
        self.list.replace(old, new);
        self.list.stands_in_order();
    }

    /// Gives a frame another first access. Touches nothing else.
    pub(crate) fn set_first(&mut self, frame: u32, first: Option<u64>)
        requires { IsIn self.old frame }
        ensures { (x : Listed ℕ) → slice_get self.old.listed (place_of ◌==◌ frame self.old.listed) ≡ Some x
            → self.new ≡ record self.old {
              listed = slice_set self.old.listed (place_of ◌==◌ frame self.old.listed)
                  (record { key = x.key; first = first; since = x.since });
            } }
    {
        let member = self.members[frame as usize];
        self.members[frame as usize] = Member { first, ..member };
    }

    /// Makes the last young frame old. Touches it alone.
    fn widen(&mut self)
        requires { self.old.old_len < length self.old.listed }
        ensures { self.new ≡ record self.old { old_len = self.old.old_len + 1 } }
    {
        prove!(self.old_len < self.list.len());
        match last_young(&self.list, self.first_old) {
            Some(frame) => {
                let member = self.members[frame as usize];
                self.members[frame as usize] = Member {
                    is_old: true,
                    ..member
                };
                self.first_old = Some(frame);
                self.old_len += 1;
            }
            None => unreachable!(),
        }
    }

    /// Makes the first old frame young. Touches it alone.
    fn narrow(&mut self)
        requires { 0 < self.old.old_len }
        ensures { self.new ≡ record self.old { old_len = self.old.old_len - 1 } }
    {
        match self.first_old {
            Some(frame) => {
                let member = self.members[frame as usize];
                self.members[frame as usize] = Member {
                    is_old: false,
                    ..member
                };
                self.first_old = self.list.next(frame);
                self.old_len -= 1;
            }
            None => unreachable!(),
        }
    }

    fn widen_to(&mut self, old: u32)
        requires { old ≤ length self.old.listed }
        ensures { self.new ≡ record self.old { old_len = max self.old.old_len old } }
    {
        while self.old_len() < old {
            self.widen();
        }
    }

    fn narrow_to(&mut self, old: u32)
        requires { old ≤ self.old.old_len }
        ensures { self.new ≡ record self.old { old_len = old } }
    {
        while old < self.old_len() {
            self.narrow();
        }
    }

    /// Makes the last `old` frames the old ones. Touches the frames between where the old sublist began and where it begins
    /// then.
    pub(crate) fn settle(&mut self, old: u32)
        requires { old ≤ length self.old.listed }
        ensures { self.new ≡ record self.old { old_len = old } }
    {
        self.widen_to(old);
        self.narrow_to(old);
    }

    /// The tail, or the frame next to `after` towards the head, which stands one place before it. It is read of one frame.
    pub(crate) fn walk(&self, after: Option<u32>) -> Option<u32>
        requires { IfSome after (λ frame. IsIn self.now frame) }
        ensures next { result ≡ next_up after self.now.listed }
        ensures step { IfSome result (λ frame. place_of ◌==◌ frame self.now.listed + 1 ≡ place_up_to after self.now.listed) }
    {
        match after {
            None => self.list.back(),
            Some(frame) => self.list.prev(frame),
        }
    }
}

/// The last of the young frames, where the list is the young ones and then the old ones, of which `first_old` is the first.
fn last_young(list: &IndexList, first_old: Option<u32>) -> Option<u32>
    requires { (young old : List ℕ) × (list.now.items ≡ young ++ old) × (first_old ≡ first old) }
    ensures { (young old : List ℕ) → list.now.items ≡ young ++ old → first_old ≡ first old → result ≡ last young }
{
    match first_old {
        Some(frame) => list.prev(frame),
        None => list.back(),
    }
}

/// Makes place for a member of each frame below `frames`. Where there is as much, no memory is taken.
fn lengthen(members: &mut Vec<Member>, frames: u32) -> Result<(), OutOfMemory>
    ensures long { OnOk result (frames ≤ length members.new.items) }
    ensures longer { length members.old.items ≤ length members.new.items }
    ensures kept { (f : ℕ) → f < length members.old.items → member_of members.new.items f ≡ member_of members.old.items f }
    ensures had { frames ≤ length members.old.items → IsOk result }
{
    if members.len() < frames as usize {
        let member = Member {
            first: None,
            since: 0,
            is_old: false,
        };
        members.resize(frames as usize, member)?;
    }
    Ok(())
}

/// Another frame where `first` is the frame, and else `first`.
fn instead(first: Option<u32>, frame: u32, other: Option<u32>) -> Option<u32>
    ensures { result ≡ instead first frame other }
{
    match first {
        Some(x) if x == frame => other,
        _ => first,
    }
}
