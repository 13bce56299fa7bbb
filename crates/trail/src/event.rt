//! Entries of a history, receipts of a pass, and the trail that has both.
ghost use Rattle.std.specs.Prelude.{◌≡◌};

use page_ids::{BadPage, Bytes, Ids, PageId, Word, Words};
use std::marker::Model;

/// What a caller asked for, with the values that it gave.
#[derive(Debug, PartialEq, Eq, Drop)]
pub enum Call {
    /// Fix the page, at a moment in milliseconds.
    Fix {
        page: PageId,
        now: u64,
    },
    /// Make the page new and blank, and fix it.
    Create {
        page: PageId,
        now: u64,
    },
    /// Change bytes of a page that the caller has fixed, from offset `at` on.
    Put {
        page: PageId,
        at: u32,
        bytes: Bytes,
    },
    /// Copy bytes of a page that the caller has fixed.
    Read {
        page: PageId,
        at: u32,
        len: u32,
    },
    /// Give back the newest fix of the page.
    Unfix {
        page: PageId,
    },
    /// Fix a remembered frame where it still holds the page at this modify clock.
    Guess {
        page: PageId,
        frame: u32,
        clock: u64,
    },
    /// Watch for the page's arrival.
    Watch {
        page: PageId,
    },
    /// Has the watched page arrived?
    Occurred {
        page: PageId,
    },
    /// Give up a watch.
    Unwatch {
        page: PageId,
    },
    /// Write dirty pages, the oldest first, at most so many.
    Clean {
        bound: u32,
    },
    /// The oldest modification's log sequence number.
    Check,
    /// The first pages of the LRU list, so many percent of it.
    Dump {
        pct: u32,
    },
    /// Bring the pool to so many bytes, within so many rounds.
    Resize {
        bytes: u64,
        rounds: u32,
    },
}

/// Why a call was refused.
#[derive(Debug, PartialEq, Eq, Drop)]
pub enum Cause {
    /// The history has no places left: the call needs `need` behind `mark`.
    PlacesSpent { mark: u64, need: u64 },
    /// The page lies behind the last of the `pages` pages of its space.
    NoSuchPage { pages: u32 },
    /// The caller holds `held` fixes in the instance, which is the most that it may.
    HoldFull { held: u32 },
    /// The page is resident in the frame.
    Resident { frame: u32 },
    /// Every frame was seen with a fix.
    AllFixed { seen: Words },
    /// The log failed: its count of faults rose from `before` to `after`.
    RedoFault { before: u64, after: u64 },
    /// The disk failed: its count of faults rose from `before` to `after`.
    DiskFault { before: u64, after: u64 },
    /// The bytes that were read are no page of this id.
    BadPage(BadPage),
    /// The log sequence numbers behind `end` don't suffice.
    LogSpent { end: u64 },
    /// So many watches stand, which is the most that may.
    WatchFull { watches: u32 },
    /// The caller has no watch on the page.
    NoWatch,
    /// A pool of no bytes was asked for.
    TooSmall,
    /// So many chunks were asked for, and `max` are allowed.
    TooLarge { chunks: u32, max: u32 },
    /// Another call is withdrawing the chunks from `from` on.
    Withdrawing { from: u32 },
    /// In each round a frame was found with a fix.
    Undone { seen: Words },
    /// The remembered frame is none of the `frames` frames.
    NoFrame { frames: u32 },
    /// The frame's word shows another modify clock, or no page.
    Stale { found: Word },
    /// The frame holds another page.
    OtherPage { found: PageId },
    /// The frame was latched when the guess came.
    Latched { found: Word },
    /// The frame was latched when the read came.
    Busy { found: Word },
    /// The caller has no open fix of the page.
    Unheld,
}

/// What an entry of a history says.
#[derive(Debug, PartialEq, Eq, Drop)]
pub enum Kind {
    /// The page was read into the frame.
    Load {
        page: PageId,
        frame: u32,
    },
    /// A fix was granted; `clock` is the frame's modify clock.
    Fix {
        page: PageId,
        frame: u32,
        clock: u64,
        now: u64,
    },
    /// A blank page was made, logged from `start` to `end`, and fixed.
    Create {
        page: PageId,
        frame: u32,
        start: u64,
        end: u64,
        now: u64,
    },
    /// Bytes were changed; the change is logged from `start` to `end`.
    Put {
        page: PageId,
        at: u32,
        bytes: Bytes,
        start: u64,
        end: u64,
    },
    /// The page left its frame; the frames passed over had fixes.
    Evict {
        page: PageId,
        frame: u32,
        passed: Words,
    },
    /// The page's image, whose last change ends at `lsn`, was written when the log was durable up to `upto`.
    Write {
        page: PageId,
        lsn: u64,
        upto: u64,
    },
    /// The page was relocated.
    Move {
        page: PageId,
        from: u32,
        to: u32,
    },
    /// The chunks from `from` on are being withdrawn.
    Withdraw {
        from: u32,
    },
    /// The withdrawal was given up.
    Undo {
        from: u32,
    },
    /// So many chunks are left.
    Shrink {
        chunks: u32,
    },
    /// So many chunks are there now.
    Grow {
        chunks: u32,
    },
    /// The resize is done; `bytes` are rounded to whole chunks.
    Resize {
        bytes: u64,
        chunks: u32,
    },
    /// So many dirty pages were written; the frames that were skipped were latched.
    Clean {
        written: u32,
        skipped: Words,
    },
    /// The oldest modification's log sequence number.
    Check {
        lsn: u64,
    },
    /// A watch was set.
    WatchSet {
        page: PageId,
    },
    /// No watch was set: the page is resident in the frame.
    WatchAt {
        page: PageId,
        frame: u32,
    },
    /// Whether the watched page has arrived.
    Occurred {
        page: PageId,
        yes: bool,
    },
    /// A watch was given up.
    Unwatch {
        page: PageId,
    },
    /// The first pages of the LRU list.
    Dump {
        pct: u32,
        ids: Ids,
    },
    /// The call was refused.
    Refused {
        call: Call,
        cause: Cause,
    },
}

/// What a receipt says.
#[derive(Debug, PartialEq, Eq, Drop)]
pub enum Note {
    /// A guess was granted.
    Granted {
        page: PageId,
        frame: u32,
        clock: u64,
    },
    /// Bytes were copied from a page, at the modify clock of its frame.
    Copied {
        page: PageId,
        at: u32,
        bytes: Bytes,
        clock: u64,
    },
    /// The fix that the caller's call `fix` got was given back.
    Unfixed {
        page: PageId,
        frame: u32,
        fix: u32,
    },
    /// The call was refused.
    Refused {
        call: Call,
        cause: Cause,
    },
}

/// An event of an instance's history.
#[derive(Debug, PartialEq, Eq, Drop)]
pub struct Entry {
    /// Where it stands in the history: the places go up by one.
    pub place: u64,
    /// The pass that made the call; 0 is the runner.
    pub caller: u32,
    /// The call's number among the caller's calls in this instance, from 1.
    pub number: u32,
    pub kind: Kind,
}

/// An event that a pass keeps beside the history.
#[derive(Debug, PartialEq, Eq, Drop)]
pub struct Receipt {
    /// The place of the history's last entry at that moment.
    pub place: u64,
    /// The pass that made the call.
    pub caller: u32,
    /// The call's number among the caller's calls in this instance, from 1.
    pub number: u32,
    pub note: Note,
}

/// An entry or a receipt.
#[derive(Debug, PartialEq, Eq, Drop)]
pub enum Event {
    Entry(Entry),
    Receipt(Receipt),
}

/// An open fix: a page, its frame, and the number of the call that got the fix.
#[derive(Clone, Copy, Debug, PartialEq, Eq)]
pub struct Held {
    pub page: PageId,
    pub frame: u32,
    pub number: u32,
}

/// A frame in hand: a victim left it, and the call that evicted the victim has not used it yet.
#[derive(Clone, Copy, Debug, PartialEq, Eq)]
pub struct Hand {
    pub frame: u32,
    pub caller: u32,
    pub number: u32,
}

/// A page that was changed since it was last written: the start LSN of the first such change, and the end LSN of the last
/// (InnoDB's `oldest_modification` and `newest_modification`).
#[derive(Clone, Copy, Debug, PartialEq, Eq)]
pub struct Dirty {
    pub page: PageId,
    pub oldest: u64,
    pub newest: u64,
}

/// An instance's history with the receipts of all its passes, each behind the entry of its place.
#[derive(Debug, Drop)]
pub struct Trail {
    /// The place before the first entry.
    pub first: u64,
    /// The events, the oldest first.
    pub events: Vec<Event>,
}

impl Model for Trail {
    ghost use Rattle.trail.specs.Trails.{Events};

    ghost Value = { Events };

    ghost view = { λ t. record { first = t.first; events = t.events.items } };
}

impl Trail {
    /// The trail of these events.
    pub fn of(first: u64, events: Vec<Event>) -> Trail
        ensures { result ≡ record { first = first; events = events.items } }
    {
        Trail { first, events }
    }

    /// The events, lent, the oldest first.
    pub fn events(&self) -> &[Event]
        ensures { result.now ≡ self.now.events }
    {
        self.events.as_slice()
    }
}
