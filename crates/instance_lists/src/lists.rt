//! An instance's history with the lists that it gives, and the one way in which they change: an entry comes.
ghost use Rattle.std.specs.Prelude.{List, ℕ, ◌≡◌, ◌<◌, ◌≤◌, ◌+◌, ◌^◌, [], ◌∷◌, Some, None, OnOk, IfOk, IfSome, IsSome, length, reverse, true, false};
ghost use Rattle.page_ids.specs.declared.ids.PageId.{PageId};
ghost use Rattle.page_ids.specs.declared.frame_word.Word.{Word};
ghost use Rattle.page_ids.specs.declared.limits.TheConstants.{CLOCK_BITS};
ghost use Rattle.trail.specs.Trails.{mark};
ghost use Rattle.trail.specs.History.{home};
ghost use Rattle.trail.specs.Book.{book, frame_in_turn, is_late};
ghost use Rattle.trail.specs.Dirt.{dirty, is_dirty, log_end};
ghost use Rattle.trail.specs.Victim.{from_the_tail};
ghost use Rattle.trail.specs.declared.event.Dirty.{Dirty};
ghost use Rattle.instance_lists.specs.Ledger.{IsOneChunk, IsVacant, IsArrival, IsMaking, IsChange, IsDeparture, MayCome, IsGrownBy};
ghost use Rattle.instance_lists.specs.KeptLists.{is_quiet};
ghost use Rattle.instance_lists.specs.Walk.{next_home, part_of, first_tried, AreOrderly};

use crate::parts::{empty_flush, empty_hash, free_frames, push_kept};
use crate::steps::{clean, give_next, is_late, list_made, soil, take_next};
use flush_list::Flush;
use midpoint_lru::Lru;
use page_hash::PageHash;
use page_ids::{Config, OutOfMemory, PageId};
use std::alloc::{AllocError, Global};
use std::collections::VecDeque;
use std::marker::Model;
use trail::{Call, Cause, Dirty, Entry, Hand, Kind};

/// An instance's history, and what it gives: homes, free frames, the LRU list, dirty pages.
///
/// Seen from outside it is the pool's numbers, the history with the newest entry first, and for how many entries there is room
/// (`Ledger`). Places are counted from `first` of the numbers: the entry that comes first has the place `first + 1`.
#[derive(Drop)]
pub struct InstanceLists {
    config: Config,
    history: Vec<Entry>,
    /// The frame of each resident page, with room for all frames from the start: a page that comes or leaves takes no memory.
    homes: PageHash,
    /// The page that each frame had last.
    tenants: Vec<PageId>,
    /// The frames without a page, in the order in which they are taken.
    free: VecDeque<u32>,
    /// The frame of a victim that its call has not used yet.
    hand: Option<Hand>,
    /// The frames of the pages that were changed since they were last written, the newest first change at the head.
    flush: Flush,
    /// The LSN behind the last change of the page in each frame; none where that page is clean.
    newest: Vec<Option<u64>>,
    /// The frames of the resident pages in LRU order.
    lru: Lru,
}

impl Model for InstanceLists {
    ghost use Rattle.std.specs.Prelude.{reverse, length, vec_len, vec_capacity, ◌-◌, ◌≡◌};
    ghost use Rattle.page_hash.specs.View as hash;
    ghost use Rattle.std.specs.VecDeque.{deque_capacity};
    ghost use Rattle.instance_lists.specs.Ledger.{Ledger};
    ghost use Rattle.instance_lists.specs.KeptLists.{AreKept};

    ghost Value = { Ledger };

    ghost view = { λ s. record {
      config = s.config;
      history = reverse s.history.items;
      room = vec_capacity s.history - vec_len s.history;
    } };

    ghost invariant = { λ s. AreKept s.config (reverse s.history.items) (hash.home s.homes) s.tenants.items
        s.free.items s.hand s.newest.items s.flush s.lru (deque_capacity s.free) × (hash.room s.homes ≡ s.config.frames) };
}

impl InstanceLists {
    /// The lists of an empty history: all frames of the one chunk are free, in rising order, and no page is in.
    ///
    /// Takes the memory of all lists, which stays enough whatever comes; that of the history is taken by `reserve`. The only error
    /// is want of memory.
    pub fn new(alloc: Global, config: &Config) -> Result<InstanceLists, OutOfMemory>
        requires start { IsOneChunk config.now }
        ensures { IfOk result (λ l. (l.config ≡ config.now) × (l.history ≡ [])) }
    {
        let frames = config.frames as usize;
        let nowhere = PageId { space: 0, page: 0 };
        let mut lru = Lru::new(alloc, config.old_pct, config.old_time, config.old_min);
        lru.grow(config.frames)?;
        Ok(InstanceLists {
            config: *config,
            history: Vec::new(alloc),
            homes: empty_hash(alloc, config.frames)?,
            tenants: vec![in alloc; nowhere; frames]?,
            free: free_frames(alloc, config.frames)?,
            hand: None,
            flush: empty_flush(alloc, config.frames)?,
            newest: vec![in alloc; None; frames]?,
            lru,
        })
    }

    /// The numbers of the pool, as they were given to `new`.
    pub fn config(&self) -> &Config
        ensures { result.now ≡ self.now.config }
    {
        &self.config
    }

    /// The allocator that the lists take their memory from.
    pub fn allocator(&self) -> Global {
        *self.history.allocator()
    }

    /// The place of the last entry: as many entries stand behind `first`. Where there is none, `first`.
    pub fn mark(&self) -> u64
        requires places { self.now.config.first + length self.now.history < 2 ^ 64 }
        ensures mark { result ≡ mark self.now.config.first self.now.history }
        ensures count { result ≡ self.now.config.first + length self.now.history }
    {
        self.config.first + self.history.len() as u64
    }

    /// The entry of this kind at the next place, by the caller's call of this number. Nothing is appended.
    pub fn next(&self, caller: u32, number: u32, kind: Kind) -> Entry
        requires places { self.now.config.first + length self.now.history + 1 < 2 ^ 64 }
        ensures { result ≡ record { place = mark self.now.config.first self.now.history + 1; caller = caller; number = number; kind = kind } }
    {
        let place = self.config.first + self.history.len() as u64 + 1;
        Entry {
            place,
            caller,
            number,
            kind,
        }
    }

    /// The frame that the page is in, below `frames` of the numbers; none where the page isn't resident, and then it isn't dirty
    /// either. No other page is in that frame.
    pub fn home(&self, page: PageId) -> Option<u32>
        ensures home { result ≡ home self.now.history page }
        ensures below { IfSome result (λ f. f < self.now.config.frames) }
        ensures only { IfSome result (λ f. (q : PageId) → home self.now.history q ≡ Some f → q ≡ page) }
        ensures clean { result ≡ None → is_dirty self.now.history page ≡ false }
    {
        self.homes.find(page)
    }

    /// The frame that the next page comes into: that of a victim, or else the first free one. No page is in it. There is none exactly
    /// where no frame is free and none in hand: then a page is in each frame of the chunk.
    pub fn next_frame(&self) -> Option<u32>
        ensures next { result ≡ frame_in_turn (book self.now.config self.now.history) }
        ensures below { IfSome result (λ f. f < self.now.config.frames) }
        ensures vacant { IfSome result (λ f. IsVacant self.now.history f) }
        ensures none { result ≡ None → (f : ℕ) → f < self.now.config.frames → (p : PageId) × (home self.now.history p ≡ Some f) }
        ensures orderly { AreOrderly self.now.config self.now.history }
    {
        match self.hand {
            Some(held) => Some(held.frame),
            None => self.free.front().copied(),
        }
    }

    /// The page that is in a frame, where there is one.
    pub fn page_in(&self, frame: u32) -> PageId
        requires listed { (page : PageId) × (home self.now.history page ≡ Some frame) }
        ensures home { home self.now.history result ≡ Some frame }
    {
        self.tenants[frame as usize]
    }

    /// The frames of the resident pages from the tail of the LRU list towards its head: the first one, or the one behind `after`, which
    /// is a page's home. None where the list ends.
    pub fn walk(&self, after: Option<u32>) -> Option<u32>
        requires listed { IfSome after (λ frame. (page : PageId) × (home self.now.history page ≡ Some frame)) }
        ensures { result ≡ next_home self.now.history after (from_the_tail self.now.config self.now.history) }
    {
        self.lru.walk(after)
    }

    /// How many resident pages are dirty, or are clean.
    fn pages_to_try(&self, soiled: bool) -> u32
        ensures { result ≡ length (part_of self.now.config self.now.history soiled) }
    {
        let dirty = self.flush.len();
        if soiled {
            dirty
        } else {
            self.lru.len() - dirty
        }
    }

    /// The frame where a search for a dirty page, or for a clean one, begins: at the tail of the LRU list. None where there is no such page:
    /// a search for clean pages looks at none where all are dirty. Touches no frame but the tail.
    pub fn first_tried(&self, soiled: bool) -> Option<u32>
        ensures { result ≡ first_tried self.now.config self.now.history soiled }
    {
        if self.pages_to_try(soiled) == 0 {
            return None;
        }
        self.lru.walk(None)
    }

    /// The page that became dirty first, with its oldest and newest LSN; none where no page is dirty. It is resident, and neither LSN
    /// lies behind the end of the log that the history tells.
    pub fn oldest(&self) -> Option<Dirty>
        ensures some { IfSome result (λ d. (rest : List Dirty) × (dirty self.now.history ≡ d ∷ rest)) }
        ensures resident { IfSome result (λ d. IsSome (home self.now.history d.page)) }
        ensures logged { IfSome result (λ d. d.newest ≤ log_end self.now.history) }
        ensures early { IfSome result (λ d. d.oldest ≤ log_end self.now.history) }
        ensures none { result ≡ None → dirty self.now.history ≡ [] }
    {
        let frame = self.flush.tail()?;
        let oldest = self.flush.oldest()?;
        let newest = self.newest[frame as usize]?;
        Some(Dirty {
            page: self.tenants[frame as usize],
            oldest,
            newest,
        })
    }

    /// Whether the page in a frame, where there is one, is dirty: it was changed since it was last written. Asks no hash.
    pub fn is_dirty_in(&self, frame: u32) -> bool
        requires listed { (page : PageId) × (home self.now.history page ≡ Some frame) }
        ensures { (page : PageId) → home self.now.history page ≡ Some frame → result ≡ is_dirty self.now.history page }
    {
        self.newest[frame as usize].is_some()
    }

    /// Whether the page is dirty: it was changed since it was last written. Asks the hash once.
    pub fn is_dirty(&self, page: PageId) -> bool
        ensures { result ≡ is_dirty self.now.history page }
    {
        match self.home(page) {
            Some(frame) => self.is_dirty_in(frame),
            None => false,
        }
    }

    /// How many pages are dirty: no more than there are frames.
    pub fn dirty_pages(&self) -> usize
        ensures count { result ≡ length (dirty self.now.history) }
        ensures few { result ≤ self.now.config.frames }
    {
        self.flush.len() as usize
    }

    /// Makes room for so many entries. There is always room for the pages that they bring in. No entry comes, whether there was memory or
    /// not; the only error is want of memory.
    pub fn reserve(&mut self, entries: usize) -> Result<(), AllocError>
        ensures room { OnOk result (entries ≤ self.new.room) }
        ensures config { self.new.config ≡ self.old.config }
        ensures history { self.new.history ≡ self.old.history }
    {
        self.history.reserve(entries)
    }

    /// Makes room for the entry of a put.
    pub fn reserve_put(&mut self) -> Result<(), AllocError>
        ensures room { OnOk result (0 < self.new.room) }
        ensures config { self.new.config ≡ self.old.config }
        ensures history { self.new.history ≡ self.old.history }
    {
        self.reserve(1)
    }

    /// Appends an entry that leaves all lists, and touches none.
    fn append_quiet(&mut self, entry: Entry)
        requires place { entry.place ≡ mark self.old.config.first self.old.history + 1 }
        requires room { 0 < self.old.room }
        requires quiet { is_quiet entry.kind ≡ true }
        ensures { IsGrownBy self.old self.new entry }
    {
        push_kept(&mut self.history, entry);
    }

    /// Appends the entry of a page that was read in: it takes the next frame, and stands at the midpoint of the LRU list.
    ///
    /// Touches the front of the free list or the frame in hand, one cell of the hash, and the LRU list at one place.
    fn append_load(&mut self, entry: Entry, page: PageId, frame: u32)
        requires kind { entry.kind ≡ Kind.Load page frame }
        requires place { entry.place ≡ mark self.old.config.first self.old.history + 1 }
        requires room { 0 < self.old.room }
        requires may { IsArrival self.old page frame }
        ensures { IsGrownBy self.old self.new entry }
    {
        take_next(&mut self.hand, &mut self.free);
        self.homes.insert(page, frame);
        self.tenants[frame as usize] = page;
        self.lru.read_in(frame);
        push_kept(&mut self.history, entry);
    }

    /// Appends the entry of a page that was made: it comes as one that was read in, is touched at once, and is dirty.
    ///
    /// Touches what a load touches, and the heads of the LRU list and of the flush list.
    fn append_create(
        &mut self,
        entry: Entry,
        page: PageId,
        frame: u32,
        now: u64,
        start: u64,
        end: u64,
    )
        requires kind { entry.kind ≡ Kind.Create page frame start end now }
        requires place { entry.place ≡ mark self.old.config.first self.old.history + 1 }
        requires room { 0 < self.old.room }
        requires may { IsMaking self.old page frame start end }
        ensures { IsGrownBy self.old self.new entry }
    {
        take_next(&mut self.hand, &mut self.free);
        self.homes.insert(page, frame);
        self.tenants[frame as usize] = page;
        list_made(&mut self.lru, frame, now);
        soil(&mut self.flush, &mut self.newest, frame, start, end);
        push_kept(&mut self.history, entry);
    }

    /// Appends the entry of a fix, which touches its frame in the LRU list.
    ///
    /// Touches the LRU list where the frame stands, and at its head where the frame moves there. Asks no hash: the entry has the frame.
    fn append_fix(&mut self, entry: Entry, page: PageId, frame: u32, now: u64)
        requires kind { (clock : ℕ) × (entry.kind ≡ Kind.Fix page frame clock now) }
        requires place { entry.place ≡ mark self.old.config.first self.old.history + 1 }
        requires room { 0 < self.old.room }
        requires may { home self.old.history page ≡ Some frame }
        ensures { IsGrownBy self.old self.new entry }
    {
        let _ = self.lru.touch(frame, now);
        push_kept(&mut self.history, entry);
    }

    /// Appends the entry of a put, which leaves its page dirty.
    ///
    /// Asks the hash once. Touches the head of the flush list where the page was clean, and else no list.
    fn append_put(&mut self, entry: Entry, page: PageId, start: u64, end: u64)
        requires kind { (at : ℕ) × (bytes : List ℕ) × (entry.kind ≡ Kind.Put page at bytes start end) }
        requires place { entry.place ≡ mark self.old.config.first self.old.history + 1 }
        requires room { 0 < self.old.room }
        requires may { IsChange self.old page start end }
        ensures { IsGrownBy self.old self.new entry }
    {
        match self.home(page) {
            Some(frame) => soil(&mut self.flush, &mut self.newest, frame, start, end),
            None => unreachable!(),
        }
        push_kept(&mut self.history, entry);
    }

    /// Appends the entry of a write, which leaves its page clean.
    ///
    /// Asks the hash once. Touches the flush list where the frame stands: at its tail, where the oldest page is written.
    fn append_write(&mut self, entry: Entry, page: PageId)
        requires kind { (lsn upto : ℕ) × (entry.kind ≡ Kind.Write page lsn upto) }
        requires place { entry.place ≡ mark self.old.config.first self.old.history + 1 }
        requires room { 0 < self.old.room }
        ensures { IsGrownBy self.old self.new entry }
    {
        let home = self.home(page);
        push_kept(&mut self.history, entry);
        if let Some(frame) = home {
            clean(&mut self.flush, &mut self.newest, frame);
        }
    }

    /// Appends the entry of a page that leaves its frame, which is then in hand.
    ///
    /// Touches one cell of the hash, and the LRU list where the frame stands.
    fn append_evict(&mut self, entry: Entry, page: PageId, frame: u32)
        requires kind { (passed : List (ℕ × Word)) × (entry.kind ≡ Kind.Evict page frame passed) }
        requires place { entry.place ≡ mark self.old.config.first self.old.history + 1 }
        requires places { self.old.config.first + length self.old.history + 1 < 2 ^ CLOCK_BITS }
        requires room { 0 < self.old.room }
        requires may { IsDeparture self.old page frame }
        ensures { IsGrownBy self.old self.new entry }
    {
        self.homes.remove(page);
        self.lru.remove(frame);
        self.hand = Some(Hand {
            frame,
            caller: entry.caller,
            number: entry.number,
        });
        push_kept(&mut self.history, entry);
    }

    /// Appends a refusal behind the call's frame, which goes to the back of the free list: its own victim's, or else the front one.
    ///
    /// Touches the ends of the free list.
    fn append_late(&mut self, entry: Entry)
        requires kind { (asked : Call) × (why : Cause) × (entry.kind ≡ Kind.Refused asked why) × (is_late asked why ≡ true) }
        requires place { entry.place ≡ mark self.old.config.first self.old.history + 1 }
        requires room { 0 < self.old.room }
        ensures { IsGrownBy self.old self.new entry }
    {
        give_next(&mut self.hand, &mut self.free, entry.caller, entry.number);
        push_kept(&mut self.history, entry);
    }

    /// Appends an entry, and brings each list to what the history then gives. Takes no memory, and always succeeds.
    ///
    /// The entry has the next place, and there is room for it. What it needs of the history is said by its kind (`MayCome`): a page
    /// that comes isn't in and takes the next frame; one that is fixed or changed is in; a change is logged at or behind the log's
    /// end; a page that leaves is clean, and no frame is free. Entries of a resize, of watches and of dumps may not come.
    pub fn append(&mut self, entry: Entry)
        requires place { entry.place ≡ mark self.old.config.first self.old.history + 1 }
        requires places { self.old.config.first + length self.old.history + 1 < 2 ^ CLOCK_BITS }
        requires room { 0 < self.old.room }
        requires may { MayCome self.old entry.kind }
        ensures { IsGrownBy self.old self.new entry }
    {
        match &entry.kind {
            &Kind::Load { page, frame } => self.append_load(entry, page, frame),
            &Kind::Fix {
                page,
                frame,
                now,
                ..
            } => self.append_fix(entry, page, frame, now),
            &Kind::Create {
                page,
                frame,
                start,
                end,
                now,
            } => self.append_create(entry, page, frame, now, start, end),
            &Kind::Put {
                page,
                start,
                end,
                ..
            } => self.append_put(entry, page, start, end),
            &Kind::Write { page, .. } => self.append_write(entry, page),
            &Kind::Evict { page, frame, .. } => self.append_evict(entry, page, frame),
            Kind::Refused { call, cause } => {
                if is_late(call, cause) {
                    self.append_late(entry);
                } else {
                    self.append_quiet(entry);
                }
            }
            Kind::Clean { .. } | Kind::Check { .. } => self.append_quiet(entry),
            Kind::Move { .. }
            | Kind::Withdraw { .. }
            | Kind::Undo { .. }
            | Kind::Shrink { .. }
            | Kind::Grow { .. }
            | Kind::Resize { .. }
            | Kind::WatchSet { .. }
            | Kind::WatchAt { .. }
            | Kind::Occurred { .. }
            | Kind::Unwatch { .. }
            | Kind::Dump { .. } => unreachable!(),
        }
    }

    /// Gives up the lists, and hands back the history with the oldest entry first.
    pub fn into_history(self) -> Vec<Entry>
        ensures { reverse result.items ≡ self.history }
    {
        let InstanceLists {
            config: _,
            history,
            homes: _,
            tenants: _,
            free: _,
            hand: _,
            flush: _,
            newest: _,
            lru: _,
        } = self;
        history
    }
}
