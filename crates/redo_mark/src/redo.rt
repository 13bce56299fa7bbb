//! The log of one caller, who has it to himself. What its device held at the start is remembered for contracts.
ghost use Rattle.std.specs.Prelude.{◌≡◌, ◌≤◌, ◌<◌, ◌+◌, ◌^◌, ℕ, List, length, OnOk, OnErr, IfOk, IfErr, IsOk, IsErr, Err};
ghost use Rattle.page_ids.specs.declared.limits.TheConstants.{LAST_LSN};
ghost use Rattle.redo_mark.specs.Records.{sealed};
ghost use Rattle.redo_mark.specs.Logs.{IsFresh, IsLater, IsLonger, IsMeasured, Holds, IsKept, IsAllKept, IsKeptAt, IsWhole, IsSpan, IsFault};

use crate::device::RedoDisk;
use crate::log::Log;
use crate::record::{Draft, Span};
use page_ids::OutOfMemory;
use std::alloc::Global;
use std::marker::Model;
use std::snapshot::Snapshot;

/// Shows that the log is durable up to an LSN: the device keeps every byte of it below. Only `Log::cover` makes one.
#[derive(Debug, Drop)]
pub struct Covered {
    pub(crate) upto: u64,
}

impl Model for Covered {
    ghost use Rattle.std.specs.Prelude.{ℕ};

    ghost Value = { ℕ };

    ghost view = { λ c. c.upto };
}

impl Covered {
    /// The durable mark that was shown (InnoDB's `log_t::flushed_to_disk_lsn`).
    pub fn upto(&self) -> u64
        ensures { result ≡ self.now }
    {
        self.upto
    }
}

/// The log, which ends here, has no LSN left for a record: none is above 2^63.
#[derive(Clone, Copy, Debug, PartialEq, Eq)]
pub struct LogSpent {
    pub end: u64,
}

/// Why the log was not made durable up to an LSN: the first of these that is so.
#[derive(Clone, Copy, Debug, PartialEq, Eq)]
pub enum CoverErr {
    /// The log ends before this LSN.
    BeyondEnd { lsn: u64, end: u64 },
    /// The device failed; these are its counts of faults before and after the call that failed.
    Fault { before: u64, after: u64 },
}

/// What is left of a log: its device, its end and its durable mark. Records behind the mark are gone.
#[derive(Debug, Drop)]
pub struct RedoEnd<R: RedoDisk> {
    pub disk: R,
    pub end: u64,
    pub durable: u64,
}

/// The log on its device, with the records that are not durable.
#[derive(Drop)]
pub struct Redo<R: RedoDisk> {
    log: Log<R>,
    /// The device as it was at the start, for contracts alone.
    opening: Snapshot<R>,
}

impl<R: RedoDisk> Model for Redo<R> {
    ghost use Rattle.redo_mark.specs.Logs.{State, HasGrown};

    ghost Value = { State R };

    ghost view = { λ r. record { seen = r.log.seen; disk = r.log.disk; opening = (R.seen r.opening.value).told } };

    ghost invariant = { λ r. HasGrown r.log.seen (R.seen r.log.disk) (R.seen r.opening.value).told };
}

impl<R: RedoDisk> Redo<R> {
    /// The log on a device, all of it durable. `first` is the LSN of the device's first byte.
    pub fn start(alloc: Global, disk: R, first: u64) -> Result<Redo<R>, (OutOfMemory, R)>
        requires limit { first + (R.seen disk).opened ≤ LAST_LSN }
        ensures fresh { IfOk result (λ r. IsFresh r.seen first (R.seen disk).opened (R.seen disk).faults) }
        ensures kept { IfOk result (λ r. IsKept r.seen (R.seen r.disk).told) }
        ensures disk { IfOk result (λ r. (r.disk ≡ disk) × (r.opening ≡ (R.seen disk).told)) }
        ensures err { IfErr result (λ e. e.1 ≡ disk) }
    {
        let opening = Snapshot::of(&disk);
        let log = Log::start(alloc, disk, first);
        Ok(Redo { log, opening })
    }

    /// Appends the record of a draft at the log's end, in memory: no device is used, and no memory is taken.
    ///
    /// It is refused exactly where the record would end above 2^63; the draft is then dropped (InnoDB's `log_buffer_reserve`).
    pub fn append(&mut self, draft: Draft) -> Result<Span, LogSpent>
        ensures span { IfOk result (IsSpan self.old.seen.end self.new.seen.end (length draft + 8)) }
        ensures record { IfOk result (λ s. Holds self.new.seen (sealed draft s.start) s.start) }
        ensures exact { IfOk result (λ s. (s.start ≡ self.old.seen.end) × IsLonger self.old.seen self.new.seen (sealed draft s.start)) }
        ensures later { IsLater self.old.seen self.new.seen }
        ensures kept { IsKept self.new.seen (R.seen self.new.disk).told }
        ensures whole { IsWhole self.new.seen }
        ensures disk { (self.new.disk ≡ self.old.disk) × (self.new.opening ≡ self.old.opening) }
        ensures mark { self.new.seen.durable ≡ self.old.seen.durable }
        ensures spent { IfErr result (λ e. (self.old.seen.end ≤ e.end) × (e.end ≤ self.new.seen.end)
            × (LAST_LSN < e.end + length draft + 8)) }
        ensures full { LAST_LSN < self.old.seen.end + length draft + 8 → IsErr result }
        ensures err { OnErr result (self.new ≡ self.old) }
    {
        self.log.append(draft)
    }

    /// Makes the log durable up to an LSN at least. It takes no memory.
    ///
    /// Where the LSN is durable no device is used. Else the records that aren't are written in their order, each by one write, the device
    /// syncs, and only then the durable mark rises, to the end that was written (InnoDB's `log_write_up_to`). After a fault nothing more is
    /// durable, and the same bytes are written again next time, at the same places.
    pub fn cover(&mut self, lsn: u64) -> Result<Covered, CoverErr>
        ensures ok { IfOk result (λ c. (c ≡ self.new.seen.durable) × (lsn ≤ c) × (c ≤ self.new.seen.end)) }
        ensures kept { IsKept self.new.seen (R.seen self.new.disk).told }
        ensures whole { IsWhole self.new.seen }
        ensures later { IsLater self.old.seen self.new.seen }
        ensures opening { self.new.opening ≡ self.old.opening }
        ensures idle { lsn ≤ self.old.seen.durable → (self.new ≡ self.old) × IsOk result }
        ensures all { self.old.seen.durable < lsn → OnOk result (self.new.seen.durable ≡ self.old.seen.end) }
        ensures end { self.new.seen.end ≡ self.old.seen.end }
        ensures err { OnErr result (self.new.seen ≡ record self.old.seen { faults = self.new.seen.faults }) }
        ensures beyond { (l end : ℕ) → result ≡ Err (CoverErr.BeyondEnd l end)
            → (l ≡ lsn) × (self.old.seen.end ≤ end) × (end < lsn) × (self.new ≡ self.old) }
        ensures far { self.old.seen.end < lsn → result ≡ Err (CoverErr.BeyondEnd lsn self.old.seen.end) }
        ensures fault { (before after : ℕ) → result ≡ Err (CoverErr.Fault before after)
            → IsFault self.old.seen.faults self.new.seen.faults before after
            × (after ≡ self.new.seen.faults) × (lsn ≤ self.new.seen.end) }
    {
        self.log.cover(lsn)
    }

    /// The LSN up to which the log is durable.
    pub fn durable(&self) -> u64
        ensures { result ≡ self.now.seen.durable }
    {
        self.log.durable()
    }

    /// The LSN behind the last record.
    pub fn end(&self) -> u64
        ensures { result ≡ self.now.seen.end }
    {
        self.log.end()
    }

    /// The marks measure the log. It does nothing.
    pub fn is_measured(&self)
        ensures { IsMeasured self.now.seen }
    {
        self.log.is_measured();
    }

    /// The device's count of faults.
    pub fn faults(&self) -> u64
        ensures { result ≡ self.now.seen.faults }
    {
        self.log.faults()
    }

    /// Ends the log and hands its device back. Records that are not durable are dropped.
    pub fn close(self) -> RedoEnd<R>
        ensures disk { result.disk ≡ self.disk }
        ensures opened { self.seen.opened ≡ self.seen.first + (R.seen result.disk).opened }
        ensures faults { self.seen.faults ≡ (R.seen result.disk).faults }
        ensures end { result.end ≡ self.seen.end }
        ensures durable { (result.durable ≡ self.seen.durable) × (result.durable ≤ result.end) }
        ensures kept { IsKept self.seen (R.seen result.disk).told }
        ensures whole { IsWhole self.seen }
        ensures all { IsAllKept (R.seen result.disk).opened self.opening self.seen (R.seen result.disk).told }
        ensures records { (piece : List ℕ) (start : ℕ) → Holds self.seen piece start → start + length piece ≤ result.durable
            → IsKeptAt self.seen.first piece start (R.seen result.disk).told }
    {
        let Redo { log, .. } = self;
        log.close()
    }
}
