//! The log: its marks, its device, and the records that are not durable.
//!
//! Who says of it no more than `IsLater`, `Holds`, `IsSpan`, `IsFault` and the number of a `Covered` says nothing that another
//! caller's appends and covers could break.
ghost use Rattle.std.specs.Prelude.{◌≡◌, ◌≤◌, ◌<◌, ◌+◌, ◌++◌, ◌^◌, ℕ, List, length, OnOk, OnErr, IfOk, IfErr, IsOk, IsErr};
ghost use Rattle.std.specs.Prelude.{Err, vec_len, vec_capacity, Option};
ghost use Rattle.std.specs.Int.{w64, to_be_bytes};
ghost use Rattle.page_ids.specs.declared.limits.TheConstants.{LAST_LSN};
ghost use Rattle.redo_mark.specs.Device.{Told, Tells, IsSynced, IsSame};
ghost use Rattle.redo_mark.specs.Records.{sealed};
ghost use Rattle.redo_mark.specs.Logs.{IsFresh, IsLater, IsLonger, IsMeasured, Holds, IsKept, IsAllKept, IsKeptAt, IsWhole, IsSpan, IsFault};
ghost use Rattle.redo_mark.specs.Logs.{HasGrown, StaysGrown};
ghost use Rattle.redo_mark.specs.Pending.{OnlyWroteBetween, IsMadeDurable, IsDraft, joined};

use crate::device::RedoDisk;
use crate::record::{Draft, Span};
use crate::redo::{CoverErr, Covered, LogSpent, RedoEnd};
use page_ids::LAST_LSN;
use std::alloc::Global;
use std::collections::LinkedList;
use std::marker::Model;

/// The counts of faults before and after a device's call that failed.
struct Fault {
    before: u64,
    after: u64,
}

/// The log on its device, with the records that are not durable.
#[derive(Drop)]
pub struct Log<R: RedoDisk> {
    disk: R,
    first: u64,
    durable: u64,
    end: u64,
    pending: LinkedList<Vec<u8>>,
}

impl<R: RedoDisk> Model for Log<R> {
    ghost use Rattle.std.specs.Prelude.{◌+◌, ◌-◌};
    ghost use Rattle.redo_mark.specs.Logs.{LogState};
    ghost use Rattle.redo_mark.specs.Pending.{IsLog, bytes_of};

    ghost Value = { LogState R };

    ghost view = { λ r. record {
      seen = record {
        first = r.first;
        opened = r.first + (R.seen r.disk).opened;
        durable = r.durable;
        end = r.end;
        faults = (R.seen r.disk).faults;
        bytes = bytes_of (R.seen r.disk).opened (r.durable - r.first) (R.seen r.disk).told r.pending;
      };
      disk = r.disk;
    } };

    ghost invariant = { λ r. IsLog r.first r.durable r.end (R.seen r.disk).opened (R.seen r.disk).reach (R.seen r.disk).told r.pending };
}

/// How many bytes the record in the node has but for its end LSN.
fn draft_len(node: &LinkedList<Vec<u8>>) -> u64
    requires { IsDraft node.now }
    ensures { result ≡ length (joined node.now) }
{
    match node.front() {
        Some(bytes) => bytes.len() as u64,
        None => unreachable!(),
    }
}

/// Puts the end LSN behind the record; there is room for it.
fn seal(bytes: &mut Vec<u8>, end: u64)
    requires { vec_len bytes.old + 8 ≤ vec_capacity bytes.old }
    ensures { bytes.new.items ≡ bytes.old.items ++ to_be_bytes w64 end }
{
    match bytes.extend_from_slice(&end.to_be_bytes()) {
        Ok(()) => (),
        Err(_) => unreachable!(),
    }
}

/// Puts the end LSN behind the record in the node.
fn seal_node(node: &mut LinkedList<Vec<u8>>, end: u64)
    requires { IsDraft node.old }
    ensures bytes { joined node.new ≡ joined node.old ++ to_be_bytes w64 end }
    ensures len { length node.new ≡ 1 }
{
    match node.front_mut() {
        Some(bytes) => seal(bytes, end),
        None => unreachable!(),
    }
}

/// Syncs the device.
fn sync<R: RedoDisk>(disk: &mut R) -> Result<(), Fault>
    ensures ok { OnOk result (Tells (R.seen disk.old).told (R.seen disk.new).told IsSynced) }
    ensures err { OnErr result (Tells (R.seen disk.old).told (R.seen disk.new).told IsSame) }
    ensures reach { (R.seen disk.old).reach ≤ (R.seen disk.new).reach }
    ensures opened { (R.seen disk.new).opened ≡ (R.seen disk.old).opened }
    ensures later { (R.seen disk.old).faults ≤ (R.seen disk.new).faults }
    ensures fault { IfErr result (λ f. IsFault (R.seen disk.old).faults (R.seen disk.new).faults f.before f.after
        × (f.after ≡ (R.seen disk.new).faults)) }
{
    let before = disk.faults();
    if disk.sync().is_err() {
        let after = disk.faults();
        return Err(Fault { before, after });
    }
    Ok(())
}

/// Writes the records one behind the other, from this offset on, and syncs.
fn write_through<R: RedoDisk>(
    disk: &mut R,
    from: u64,
    pending: &LinkedList<Vec<u8>>,
) -> Result<(), Fault>
    requires within { from ≤ (R.seen disk.old).reach }
    requires limit { from + length (joined pending.now) ≤ LAST_LSN }
    ensures ok { OnOk result (Tells (R.seen disk.old).told (R.seen disk.new).told (IsMadeDurable from (joined pending.now))) }
    ensures err { OnErr result (Tells (R.seen disk.old).told (R.seen disk.new).told
        (OnlyWroteBetween from (from + length (joined pending.now)))) }
    ensures reach { (R.seen disk.old).reach ≤ (R.seen disk.new).reach }
    ensures reached { OnOk result (from + length (joined pending.now) ≤ (R.seen disk.new).reach) }
    ensures opened { (R.seen disk.new).opened ≡ (R.seen disk.old).opened }
    ensures later { (R.seen disk.old).faults ≤ (R.seen disk.new).faults }
    ensures fault { IfErr result (λ f. IsFault (R.seen disk.old).faults (R.seen disk.new).faults f.before f.after
        × (f.after ≡ (R.seen disk.new).faults)) }
{
    let mut at = from;
    for bytes in pending.iter() {
        let before = disk.faults();
        if disk.write_at(at, bytes.as_slice()).is_err() {
            let after = disk.faults();
            return Err(Fault { before, after });
        }
        at += bytes.len() as u64;
    }
    sync(disk)
}

impl<R: RedoDisk> Log<R> {
    /// The log on a device, all of it durable. `first` is the LSN of the device's first byte.
    pub fn start(alloc: Global, disk: R, first: u64) -> Log<R>
        requires limit { first + (R.seen disk).opened ≤ LAST_LSN }
        ensures fresh { IsFresh result.seen first (R.seen disk).opened (R.seen disk).faults }
        ensures kept { IsKept result.seen (R.seen result.disk).told }
        ensures disk { result.disk ≡ disk }
        ensures grown { HasGrown result.seen (R.seen result.disk) (R.seen disk).told }
    {
        let end = first + disk.end();
        Log {
            disk,
            first,
            durable: end,
            end,
            pending: LinkedList::new(alloc),
        }
    }

    /// Appends the record of a draft at the log's end, in memory: no device is used, and no memory is taken.
    ///
    /// It is refused exactly where the record would end above 2^63; the draft is then dropped (InnoDB's `log_buffer_reserve`).
    pub fn append(&mut self, draft: Draft) -> Result<Span, LogSpent>
        ensures span { IfOk result (IsSpan self.old.seen.end self.new.seen.end (length draft + 8)) }
        ensures record { IfOk result (λ s. Holds self.new.seen (sealed draft s.start) s.start) }
        ensures exact { IfOk result (λ s. (s.start ≡ self.old.seen.end) × IsLonger self.old.seen self.new.seen (sealed draft s.start)) }
        ensures later { IsLater self.old.seen self.new.seen }
        ensures kept { IsKept self.new.seen (R.seen self.new.disk).told }
        ensures whole { IsWhole self.new.seen }
        ensures disk { self.new.disk ≡ self.old.disk }
        ensures grown { StaysGrown self.old.seen (R.seen self.old.disk) self.new.seen (R.seen self.new.disk) }
        ensures mark { self.new.seen.durable ≡ self.old.seen.durable }
        ensures spent { IfErr result (λ e. (self.old.seen.end ≤ e.end) × (e.end ≤ self.new.seen.end)
            × (LAST_LSN < e.end + length draft + 8)) }
        ensures full { LAST_LSN < self.old.seen.end + length draft + 8 → IsErr result }
        ensures err { OnErr result (self.new ≡ self.old) }
    {
        let mut node = draft.into_node();
        let start = self.end;
        let len = draft_len(&node) + 8;
        if LAST_LSN - start < len {
            return Err(LogSpent { end: start });
        }
        let end = start + len;
        seal_node(&mut node, end);
        match self.pending.append(&mut node) {
            Ok(()) => (),
            Err(_) => unreachable!(),
        }
        self.end = end;
        Ok(Span { start, end })
    }

    /// Makes the log durable up to an LSN at least. It takes no memory.
    ///
    /// Where the LSN is durable no device is used. Else the records that aren't are written in their order, each by one write, the device
    /// syncs, and only then the durable mark rises, to the end that was written (InnoDB's `log_write_up_to`). After a fault nothing more is
    /// durable, and the same bytes are written again next time, at the same places.
    pub fn cover(&mut self, lsn: u64) -> Result<Covered, CoverErr>
        ensures ok { IfOk result (λ c. (c ≡ self.new.seen.durable) × (lsn ≤ c) × (c ≤ self.new.seen.end)) }
        ensures kept { IsKept self.new.seen (R.seen self.new.disk).told }
        ensures whole { IsWhole self.new.seen }
        ensures later { IsLater self.old.seen self.new.seen }
        ensures grown { StaysGrown self.old.seen (R.seen self.old.disk) self.new.seen (R.seen self.new.disk) }
        ensures idle { lsn ≤ self.old.seen.durable → (self.new ≡ self.old) × IsOk result }
        ensures all { self.old.seen.durable < lsn → OnOk result (self.new.seen.durable ≡ self.old.seen.end) }
        ensures end { self.new.seen.end ≡ self.old.seen.end }
        ensures err { OnErr result (self.new.seen ≡ record self.old.seen { faults = self.new.seen.faults }) }
        ensures beyond { (l end : ℕ) → result ≡ Err (CoverErr.BeyondEnd l end)
            → (l ≡ lsn) × (self.old.seen.end ≤ end) × (end < lsn) × (self.new ≡ self.old) }
        ensures far { self.old.seen.end < lsn → result ≡ Err (CoverErr.BeyondEnd lsn self.old.seen.end) }
        ensures fault { (before after : ℕ) → result ≡ Err (CoverErr.Fault before after)
            → IsFault self.old.seen.faults self.new.seen.faults before after
            × (after ≡ self.new.seen.faults) × (lsn ≤ self.new.seen.end) }
    {
        if lsn > self.end {
            return Err(CoverErr::BeyondEnd { lsn, end: self.end });
        }
        if lsn <= self.durable {
            return Ok(Covered { upto: self.durable });
        }
        let from = self.durable - self.first;
        match write_through(&mut self.disk, from, &self.pending) {
            Ok(()) => (),
            Err(Fault { before, after }) => return Err(CoverErr::Fault { before, after }),
        }
        self.pending.clear();
        self.durable = self.end;
        Ok(Covered { upto: self.durable })
    }

    /// The LSN up to which the log is durable.
    pub fn durable(&self) -> u64
        ensures { result ≡ self.now.seen.durable }
    {
        self.durable
    }

    /// The LSN behind the last record.
    pub fn end(&self) -> u64
        ensures { result ≡ self.now.seen.end }
    {
        self.end
    }

    /// The marks measure the log. It does nothing.
    pub fn is_measured(&self)
        ensures { IsMeasured self.now.seen }
    {
        let _ = &self.end;
    }

    /// The device's count of faults.
    pub fn faults(&self) -> u64
        ensures { result ≡ self.now.seen.faults }
    {
        self.disk.faults()
    }

    /// Ends the log and hands its device back. Records that are not durable are dropped.
    pub fn close(self) -> RedoEnd<R>
        ensures disk { result.disk ≡ self.disk }
        ensures opened { self.seen.opened ≡ self.seen.first + (R.seen result.disk).opened }
        ensures faults { self.seen.faults ≡ (R.seen result.disk).faults }
        ensures end { result.end ≡ self.seen.end }
        ensures durable { (result.durable ≡ self.seen.durable) × (result.durable ≤ result.end) }
        ensures kept { IsKept self.seen (R.seen result.disk).told }
        ensures whole { IsWhole self.seen }
        ensures all { (opening : Option Told) → HasGrown self.seen (R.seen self.disk) opening
            → IsAllKept (R.seen result.disk).opened opening self.seen (R.seen result.disk).told }
        ensures records { (piece : List ℕ) (start : ℕ) → Holds self.seen piece start → start + length piece ≤ result.durable
            → IsKeptAt self.seen.first piece start (R.seen result.disk).told }
    {
        let Log {
            disk,
            durable,
            end,
            pending,
            ..
        } = self;
        drop(pending);
        RedoEnd { disk, end, durable }
    }
}
