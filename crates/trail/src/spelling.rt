//! The text of a trail: one line for each event.
ghost use Rattle.std.specs.Prelude.{ℕ, ◌≡◌, ◌++◌, Some, OnOk, OnErr, count_by};
ghost use Rattle.trail.specs.Spelling.{call_text, cause_text, kind_text, note_text, entry_text, receipt_text};
ghost use Rattle.trail.specs.Spelling.{event_text, trail_text, lines_text, is_entry, Begins};
ghost use Rattle.trail.specs.Trails.{Events};
ghost use Rattle.trail.specs.Typed.{TrailFits};

use crate::event::{Call, Cause, Entry, Event, Kind, Note, Receipt, Trail};
use page_ids::{BadPage, OutOfMemory};
use std::alloc::Global;
use std::fmt;

/// The call's word and its values, as in a script.
impl fmt::Display for Call {
    ghost output = { λ c. Some (call_text c) };

    fn fmt<W: fmt::Write>(&self, f: &mut fmt::Formatter<W>) -> fmt::Result {
        match self {
            Call::Fix { page, now } => write!(f, "fix {page} {now}"),
            Call::Create { page, now } => write!(f, "create {page} {now}"),
            Call::Put { page, at, bytes } => write!(f, "put {page} {at} {bytes}"),
            Call::Read { page, at, len } => write!(f, "read {page} {at} {len}"),
            Call::Unfix { page } => write!(f, "unfix {page}"),
            Call::Guess { page, frame, clock } => write!(f, "guess {page} {frame} {clock}"),
            Call::Watch { page } => write!(f, "watch {page}"),
            Call::Occurred { page } => write!(f, "seen {page}"),
            Call::Unwatch { page } => write!(f, "unwatch {page}"),
            Call::Clean { bound } => write!(f, "clean {bound}"),
            Call::Check => write!(f, "checkpoint"),
            Call::Dump { pct } => write!(f, "dump {pct}"),
            Call::Resize { bytes, rounds } => write!(f, "resize {bytes} {rounds}"),
        }
    }
}

/// The cause's name and its values.
impl fmt::Display for Cause {
    ghost output = { λ c. Some (cause_text c) };

    fn fmt<W: fmt::Write>(&self, f: &mut fmt::Formatter<W>) -> fmt::Result {
        match self {
            Cause::PlacesSpent { mark, need } => write!(f, "PlacesSpent {mark} {need}"),
            Cause::NoSuchPage { pages } => write!(f, "NoSuchPage {pages}"),
            Cause::HoldFull { held } => write!(f, "HoldFull {held}"),
            Cause::Resident { frame } => write!(f, "Resident {frame}"),
            Cause::AllFixed { seen } => write!(f, "AllFixed {seen}"),
            Cause::RedoFault { before, after } => write!(f, "RedoFault {before} {after}"),
            Cause::DiskFault { before, after } => write!(f, "DiskFault {before} {after}"),
            Cause::BadPage(BadPage::Number { found }) => write!(f, "BadPage Number {found}"),
            Cause::BadPage(BadPage::Space { found }) => write!(f, "BadPage Space {found}"),
            Cause::BadPage(BadPage::Torn { head, tail }) => write!(f, "BadPage Torn {head} {tail}"),
            Cause::LogSpent { end } => write!(f, "LogSpent {end}"),
            Cause::WatchFull { watches } => write!(f, "WatchFull {watches}"),
            Cause::NoWatch => write!(f, "NoWatch"),
            Cause::TooSmall => write!(f, "TooSmall"),
            Cause::TooLarge { chunks, max } => write!(f, "TooLarge {chunks} {max}"),
            Cause::Withdrawing { from } => write!(f, "Withdrawing {from}"),
            Cause::Undone { seen } => write!(f, "Undone {seen}"),
            Cause::NoFrame { frames } => write!(f, "NoFrame {frames}"),
            Cause::Stale { found } => write!(f, "Stale {found}"),
            Cause::OtherPage { found } => write!(f, "OtherPage {found}"),
            Cause::Latched { found } => write!(f, "Latched {found}"),
            Cause::Busy { found } => write!(f, "Busy {found}"),
            Cause::Unheld => write!(f, "Unheld"),
        }
    }
}

/// The kind's word and its values.
impl fmt::Display for Kind {
    ghost output = { λ k. Some (kind_text k) };

    fn fmt<W: fmt::Write>(&self, f: &mut fmt::Formatter<W>) -> fmt::Result {
        match self {
            Kind::Load { page, frame } => write!(f, "load {page} {frame}"),
            Kind::Fix {
                page,
                frame,
                clock,
                now,
            } => write!(f, "fix {page} {frame} {clock} {now}"),
            Kind::Create {
                page,
                frame,
                start,
                end,
                now,
            } => { write!(f, "create {page} {frame} {start} {end} {now}") }
            Kind::Put {
                page,
                at,
                bytes,
                start,
                end,
            } => { write!(f, "put {page} {at} {bytes} {start} {end}") }
            Kind::Evict {
                page,
                frame,
                passed,
            } => write!(f, "evict {page} {frame} {passed}"),
            Kind::Write { page, lsn, upto } => write!(f, "write {page} {lsn} {upto}"),
            Kind::Move { page, from, to } => write!(f, "move {page} {from} {to}"),
            Kind::Withdraw { from } => write!(f, "withdraw {from}"),
            Kind::Undo { from } => write!(f, "undo {from}"),
            Kind::Shrink { chunks } => write!(f, "shrink {chunks}"),
            Kind::Grow { chunks } => write!(f, "grow {chunks}"),
            Kind::Resize { bytes, chunks } => write!(f, "resize {bytes} {chunks}"),
            Kind::Clean { written, skipped } => write!(f, "clean {written} {skipped}"),
            Kind::Check { lsn } => write!(f, "checkpoint {lsn}"),
            Kind::WatchSet { page } => write!(f, "watch {page} set"),
            Kind::WatchAt { page, frame } => write!(f, "watch {page} at {frame}"),
            Kind::Occurred { page, yes: true } => write!(f, "seen {page} yes"),
            Kind::Occurred { page, yes: false } => write!(f, "seen {page} no"),
            Kind::Unwatch { page } => write!(f, "unwatch {page}"),
            Kind::Dump { pct, ids } => write!(f, "dump {pct} {ids}"),
            Kind::Refused { call, cause } => write!(f, "refused {call} {cause}"),
        }
    }
}

/// The note's word and its values.
impl fmt::Display for Note {
    ghost output = { λ n. Some (note_text n) };

    fn fmt<W: fmt::Write>(&self, f: &mut fmt::Formatter<W>) -> fmt::Result {
        match self {
            Note::Granted { page, frame, clock } => write!(f, "granted {page} {frame} {clock}"),
            Note::Copied {
                page,
                at,
                bytes,
                clock,
            } => write!(f, "copied {page} {at} {bytes} {clock}"),
            Note::Unfixed { page, frame, fix } => write!(f, "unfixed {page} {frame} {fix}"),
            Note::Refused { call, cause } => write!(f, "refused {call} {cause}"),
        }
    }
}

/// `E PLACE CALLER.NUMBER KIND`.
impl fmt::Display for Entry {
    ghost output = { λ e. Some (entry_text e) };

    fn fmt<W: fmt::Write>(&self, f: &mut fmt::Formatter<W>) -> fmt::Result {
        let place = self.place;
        let caller = self.caller;
        let number = self.number;
        let kind = &self.kind;
        write!(f, "E {place} {caller}.{number} {kind}")
    }
}

/// `R PLACE CALLER.NUMBER NOTE`.
impl fmt::Display for Receipt {
    ghost output = { λ r. Some (receipt_text r) };

    fn fmt<W: fmt::Write>(&self, f: &mut fmt::Formatter<W>) -> fmt::Result {
        let place = self.place;
        let caller = self.caller;
        let number = self.number;
        let note = &self.note;
        write!(f, "R {place} {caller}.{number} {note}")
    }
}

/// The entry or the receipt, without the line's end.
impl fmt::Display for Event {
    ghost output = { λ e. Some (event_text e) };

    fn fmt<W: fmt::Write>(&self, f: &mut fmt::Formatter<W>) -> fmt::Result {
        match self {
            Event::Entry(entry) => write!(f, "{entry}"),
            Event::Receipt(receipt) => write!(f, "{receipt}"),
        }
    }
}

/// How many of the events are entries.
fn entries_among(events: &[Event]) -> usize
    ensures { result ≡ count_by is_entry events.now }
{
    let mut entries = 0;
    for event in events {
        if let Event::Entry(_) = event {
            entries += 1;
        }
    }
    entries
}

/// Appends a line for each event.
fn push_lines(alloc: Global, events: &[Event], out: &mut Vec<u8>) -> Result<(), OutOfMemory>
    ensures ok { OnOk result (out.new.items ≡ out.old.items ++ lines_text events.now) }
    ensures begins { Begins out.old.items out.new.items }
{
    for event in events {
        let line = format!(in alloc; "{event}\n")?;
        out.extend_from_slice(line.as_bytes())?;
    }
    Ok(())
}

/// Appends the text; after a refusal a part of it may stand there.
fn push_trail(
    alloc: Global,
    instance: u16,
    trail: &Trail,
    out: &mut Vec<u8>,
) -> Result<(), OutOfMemory>
    ensures ok { OnOk result (out.new.items ≡ out.old.items ++ trail_text instance trail.now) }
    ensures begins { Begins out.old.items out.new.items }
{
    let events = trail.events();
    let entries = entries_among(events);
    let receipts = events.len() - entries;
    let head = format!(in alloc; "trail {instance} {entries} {receipts}\n")?;
    out.extend_from_slice(head.as_bytes())?;
    push_lines(alloc, events, out)
}

/// Appends the text of an instance's trail: how many entries and receipts, and a line for each event.
///
/// `OutOfMemory` leaves the bytes as they were.
pub fn text(
    alloc: Global,
    instance: u16,
    trail: &Trail,
    out: &mut Vec<u8>,
) -> Result<(), OutOfMemory>
    ensures ok { OnOk result (out.new.items ≡ out.old.items ++ trail_text instance trail.now) }
    ensures err { OnErr result (out.new.items ≡ out.old.items) }
{
    let held = out.len();
    let pushed = push_trail(alloc, instance, trail, out);
    if pushed.is_err() {
        out.truncate(held);
    }
    pushed
}

/// Two trails with the same text are equal, and so are their instances.
///
/// A law of trails whose numbers fit their types and that have an entry, the first one at the place behind `first`.
pub fn text_tells_the_trail()
    ensures { (i j : ℕ) (t u : Events) → TrailFits i t → TrailFits j u → trail_text i t ≡ trail_text j u
        → (i ≡ j) × (t ≡ u) }
{}
