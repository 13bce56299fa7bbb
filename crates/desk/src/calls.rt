//! What the desk's calls take and answer.
use page_ids::{BadPage, Words};

/// Who makes a call: the pass, and the call's number among the pass's calls in this instance.
#[derive(Clone, Copy, Debug, PartialEq, Eq)]
pub struct Caller {
    pub pass: u32,
    pub number: u32,
}

/// A fix that was granted: the page's frame, the frame's modify clock, and the place of the entry.
#[derive(Clone, Copy, Debug, PartialEq, Eq)]
pub struct Granted {
    pub frame: u32,
    pub clock: u64,
    pub place: u64,
}

/// Why a fix was refused.
#[derive(Debug, PartialEq, Eq, Drop)]
pub enum FixErr {
    /// No memory. Nothing has changed.
    OutOfMemory,
    /// The page lies behind the last of the `pages` pages of its space.
    NoSuchPage { pages: u32 },
    /// The caller holds `held` fixes in the instance, which is the most that it may.
    HoldFull { held: u32 },
    /// No frame was free, and every frame was seen with a fix.
    AllFixed { seen: Words },
    /// The log's count of faults rose from `before` to `after` as it was to be made durable for a page that had to be written first.
    RedoFault { before: u64, after: u64 },
    /// The disk's count of faults rose from `before` to `after` in the read, or in the write of a page that had to leave.
    DiskFault { before: u64, after: u64 },
    /// The bytes that were read are no page of this id.
    BadPage(BadPage),
}

/// Why no frame was had for a page.
#[derive(Debug, PartialEq, Eq, Drop)]
pub(crate) enum FrameErr {
    /// No memory. Nothing has changed.
    OutOfMemory,
    /// No frame was free, and every frame was seen with a fix.
    AllFixed { seen: Words },
    /// The log's count of faults rose from `before` to `after` as it was to be made durable for a page that had to be written first.
    RedoFault { before: u64, after: u64 },
    /// The disk's count of faults rose from `before` to `after` in the write of a page that had to leave.
    DiskFault { before: u64, after: u64 },
}

/// Why a create was refused.
#[derive(Debug, PartialEq, Eq, Drop)]
pub enum CreateErr {
    /// No memory. Nothing has changed.
    OutOfMemory,
    /// The page lies behind the last of the `pages` pages of its space.
    NoSuchPage { pages: u32 },
    /// The caller holds `held` fixes in the instance, which is the most that it may.
    HoldFull { held: u32 },
    /// The page is in this frame.
    Resident { frame: u32 },
    /// No frame was free, and every frame was seen with a fix.
    AllFixed { seen: Words },
    /// The log's count of faults rose from `before` to `after` as it was to be made durable for a page that had to be written first.
    RedoFault { before: u64, after: u64 },
    /// The disk's count of faults rose from `before` to `after` in the write of a page that had to leave.
    DiskFault { before: u64, after: u64 },
    /// The log ends at `end`, and the create's record would end above 2^63. The frame that was had for the page is free again.
    LogSpent { end: u64 },
}

/// A put that was done: the end LSN of its record, and the place of its entry, which is the frame's new clock.
#[derive(Clone, Copy, Debug, PartialEq, Eq)]
pub struct PutDone {
    pub lsn: u64,
    pub place: u64,
}

/// Why a put was refused. The page is then as it was.
#[derive(Clone, Copy, Debug, PartialEq, Eq)]
pub enum PutErr {
    /// No memory. Nothing has changed.
    OutOfMemory,
    /// The log ends at `end`, and the put's record would end above 2^63.
    LogSpent { end: u64 },
}

/// Why a call was refused that is refused for nothing else.
#[derive(Clone, Copy, Debug, PartialEq, Eq)]
pub enum CallErr {
    /// No memory. Nothing has changed.
    OutOfMemory,
}

/// What a clean did: how many pages were written, and which frames were skipped because they were latched.
#[derive(Debug, Drop)]
pub struct Cleaned {
    pub written: u32,
    pub skipped: Words,
}

/// Why a clean was refused. Pages that were written before a device failed stay written.
#[derive(Clone, Copy, Debug, PartialEq, Eq)]
pub enum CleanErr {
    /// No memory. Nothing has changed.
    OutOfMemory,
    /// The log's count of faults rose from `before` to `after` as it was to be made durable.
    RedoFault { before: u64, after: u64 },
    /// The disk's count of faults rose from `before` to `after` in a write or in the sync.
    DiskFault { before: u64, after: u64 },
}
