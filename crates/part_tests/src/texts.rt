//! trail: what entries, receipts, calls and causes read as, and a merged trail.

use page_ids::{BadPage, Bytes, Ids, OutOfMemory, PageId, Word, Words};
use std::alloc::{AllocError, Global};
use std::fmt::Display;
use std::process::Abort;
use std::test::Fail;
use trail::{Call, Cause, Entry, Event, Kind, Note, Receipt, Trail, merge, text};

const PAGE: PageId = PageId { space: 3, page: 7 };

/// A frame without a page.
const EMPTY: Word = Word { bits: 0x2_0000 };

/// Resident, with one fix.
const FIXED: Word = Word { bits: 0x5_8001 };

/// Resident and latched.
const LATCHED: Word = Word { bits: 0x9_C002 };

fn bytes(rt: &HostRuntime) -> Result<Bytes, AllocError> {
    Ok(Bytes::of(vec![in rt.alloc(); 0, 171]?))
}

fn words(rt: &HostRuntime) -> Result<Words, AllocError> {
    Ok(Words::of(vec![in rt.alloc(); (0, FIXED), (2, LATCHED)]?))
}

fn no_words(rt: &HostRuntime) -> Words {
    Words::of(Vec::new(rt.alloc()))
}

fn entry(place: u64, caller: u32, number: u32, kind: Kind) -> Event {
    Event::Entry(Entry {
        place,
        caller,
        number,
        kind,
    })
}

fn receipt(place: u64, caller: u32, number: u32, note: Note) -> Event {
    Event::Receipt(Receipt {
        place,
        caller,
        number,
        note,
    })
}

/// A page is read in, fixed, looked at and given back; then the pool is closed.
fn one_read(rt: &HostRuntime) -> Result<Trail, AllocError> {
    let page = PageId { space: 0, page: 0 };
    let load = Kind::Load { page, frame: 0 };
    let fix = Kind::Fix {
        page,
        frame: 0,
        clock: 1,
        now: 5,
    };
    let copied = Note::Copied {
        page,
        at: 38,
        bytes: Bytes::of(vec![in rt.alloc(); 0, 0, 0, 0]?),
        clock: 1,
    };
    let unfixed = Note::Unfixed {
        page,
        frame: 0,
        fix: 1,
    };
    let clean = Kind::Clean {
        written: 0,
        skipped: no_words(rt),
    };
    let events = vec![in rt.alloc();
        entry(1, 1, 1, load),
        entry(2, 1, 1, fix),
        receipt(2, 1, 2, copied),
        receipt(2, 1, 3, unfixed),
        entry(3, 0, 1, clean),
    ]?;
    Ok(Trail::of(0, events))
}

/// Each value is spelled as the text beside it.
pub(crate) fn compare<T: Display>(
    rt: &impl Abort,
    alloc: Global,
    rows: &[(T, &str)],
) -> Result<(), AllocError> {
    for (value, want) in rows {
        let line = value.to_string(alloc)?;
        assert_eq!(rt; line.as_str(), *want);
    }
    Ok(())
}

/// Kinds, but for those with lists.
const KINDS: [(Kind, &str); 17] = [
    (
        Kind::Load {
            page: PAGE,
            frame: 2,
        },
        "load 3:7 2",
    ),
    (
        Kind::Fix {
            page: PAGE,
            frame: 2,
            clock: 5,
            now: 9,
        },
        "fix 3:7 2 5 9",
    ),
    (
        Kind::Create {
            page: PAGE,
            frame: 2,
            start: 10,
            end: 31,
            now: 9,
        },
        "create 3:7 2 10 31 9",
    ),
    (
        Kind::Write {
            page: PAGE,
            lsn: 33,
            upto: 40,
        },
        "write 3:7 33 40",
    ),
    (
        Kind::Move {
            page: PAGE,
            from: 2,
            to: 0,
        },
        "move 3:7 2 0",
    ),
    (Kind::Withdraw { from: 1 }, "withdraw 1"),
    (Kind::Undo { from: 1 }, "undo 1"),
    (Kind::Shrink { chunks: 1 }, "shrink 1"),
    (Kind::Grow { chunks: 3 }, "grow 3"),
    (
        Kind::Resize {
            bytes: 98304,
            chunks: 3,
        },
        "resize 98304 3",
    ),
    (Kind::Check { lsn: 33 }, "checkpoint 33"),
    (Kind::WatchSet { page: PAGE }, "watch 3:7 set"),
    (
        Kind::WatchAt {
            page: PAGE,
            frame: 2,
        },
        "watch 3:7 at 2",
    ),
    (
        Kind::Occurred {
            page: PAGE,
            yes: true,
        },
        "seen 3:7 yes",
    ),
    (
        Kind::Occurred {
            page: PAGE,
            yes: false,
        },
        "seen 3:7 no",
    ),
    (Kind::Unwatch { page: PAGE }, "unwatch 3:7"),
    (
        Kind::Refused {
            call: Call::Check,
            cause: Cause::Unheld,
        },
        "refused checkpoint Unheld",
    ),
];

/// Kinds with bytes, words or ids.
fn kinds_with_lists(rt: &HostRuntime) -> Result<[(Kind, &'static str); 4], AllocError> {
    let ids = Ids::of(vec![in rt.alloc(); PAGE, PageId { space: 0, page: 1 }]?);
    Ok([
        (
            Kind::Put {
                page: PAGE,
                at: 38,
                bytes: bytes(rt)?,
                start: 10,
                end: 33,
            },
            "put 3:7 38 00ab 10 33",
        ),
        (
            Kind::Evict {
                page: PAGE,
                frame: 2,
                passed: words(rt)?,
            },
            "evict 3:7 2 0=5/R/1,2=9/RL/2",
        ),
        (
            Kind::Clean {
                written: 4,
                skipped: no_words(rt),
            },
            "clean 4 -",
        ),
        (Kind::Dump { pct: 50, ids }, "dump 50 3:7,0:1"),
    ])
}

/// Notes, but for the one with bytes.
const NOTES: [(Note, &str); 3] = [
    (
        Note::Granted {
            page: PAGE,
            frame: 2,
            clock: 5,
        },
        "granted 3:7 2 5",
    ),
    (
        Note::Unfixed {
            page: PAGE,
            frame: 2,
            fix: 4,
        },
        "unfixed 3:7 2 4",
    ),
    (
        Note::Refused {
            call: Call::Unfix { page: PAGE },
            cause: Cause::Unheld,
        },
        "refused unfix 3:7 Unheld",
    ),
];

/// Calls, but for the one with bytes.
const CALLS: [(Call, &str); 12] = [
    (Call::Fix { page: PAGE, now: 9 }, "fix 3:7 9"),
    (Call::Create { page: PAGE, now: 9 }, "create 3:7 9"),
    (
        Call::Read {
            page: PAGE,
            at: 38,
            len: 4,
        },
        "read 3:7 38 4",
    ),
    (Call::Unfix { page: PAGE }, "unfix 3:7"),
    (
        Call::Guess {
            page: PAGE,
            frame: 2,
            clock: 5,
        },
        "guess 3:7 2 5",
    ),
    (Call::Watch { page: PAGE }, "watch 3:7"),
    (Call::Occurred { page: PAGE }, "seen 3:7"),
    (Call::Unwatch { page: PAGE }, "unwatch 3:7"),
    (Call::Clean { bound: 16384 }, "clean 16384"),
    (Call::Check, "checkpoint"),
    (Call::Dump { pct: 50 }, "dump 50"),
    (
        Call::Resize {
            bytes: 98304,
            rounds: 2,
        },
        "resize 98304 2",
    ),
];

/// Causes, but for those with words.
const CAUSES: [(Cause, &str); 21] = [
    (Cause::PlacesSpent { mark: 8, need: 4 }, "PlacesSpent 8 4"),
    (Cause::NoSuchPage { pages: 64 }, "NoSuchPage 64"),
    (Cause::HoldFull { held: 64 }, "HoldFull 64"),
    (Cause::Resident { frame: 2 }, "Resident 2"),
    (
        Cause::RedoFault {
            before: 0,
            after: 1,
        },
        "RedoFault 0 1",
    ),
    (
        Cause::DiskFault {
            before: 1,
            after: 2,
        },
        "DiskFault 1 2",
    ),
    (
        Cause::BadPage(BadPage::Number { found: 8 }),
        "BadPage Number 8",
    ),
    (
        Cause::BadPage(BadPage::Space { found: 8 }),
        "BadPage Space 8",
    ),
    (
        Cause::BadPage(BadPage::Torn { head: 8, tail: 9 }),
        "BadPage Torn 8 9",
    ),
    (Cause::LogSpent { end: 33 }, "LogSpent 33"),
    (Cause::WatchFull { watches: 16 }, "WatchFull 16"),
    (Cause::NoWatch, "NoWatch"),
    (Cause::TooSmall, "TooSmall"),
    (Cause::TooLarge { chunks: 5, max: 4 }, "TooLarge 5 4"),
    (Cause::Withdrawing { from: 1 }, "Withdrawing 1"),
    (Cause::NoFrame { frames: 4 }, "NoFrame 4"),
    (Cause::Stale { found: EMPTY }, "Stale 2/-/0"),
    (Cause::OtherPage { found: PAGE }, "OtherPage 3:7"),
    (Cause::Latched { found: LATCHED }, "Latched 9/RL/2"),
    (
        Cause::Busy {
            found: Word { bits: 0x9_4000 },
        },
        "Busy 9/L/0",
    ),
    (Cause::Unheld, "Unheld"),
];

/// Causes with words.
fn causes_with_words(rt: &HostRuntime) -> Result<[(Cause, &'static str); 2], AllocError> {
    Ok([
        (
            Cause::AllFixed { seen: words(rt)? },
            "AllFixed 0=5/R/1,2=9/RL/2",
        ),
        (Cause::Undone { seen: no_words(rt) }, "Undone -"),
    ])
}

fn unfixed(place: u64, caller: u32, number: u32) -> Receipt {
    Receipt {
        place,
        caller,
        number,
        note: Note::Unfixed {
            page: PAGE,
            frame: 0,
            fix: 1,
        },
    }
}

fn checked(place: u64, caller: u32, number: u32) -> Entry {
    Entry {
        place,
        caller,
        number,
        kind: Kind::Check { lsn: 1 },
    }
}

#[test]
fn events_are_spelled(rt: HostRuntime) -> Result<(), Fail> {
    let alloc = rt.alloc();
    compare(&rt, alloc, &KINDS)?;
    compare(&rt, alloc, &kinds_with_lists(&rt)?)?;
    compare(&rt, alloc, &NOTES)?;
    compare(&rt, alloc, &CALLS)?;
    compare(&rt, alloc, &CAUSES)?;
    compare(&rt, alloc, &causes_with_words(&rt)?)?;
    let copied = Note::Copied {
        page: PAGE,
        at: 38,
        bytes: bytes(&rt)?,
        clock: 5,
    };
    compare(&rt, alloc, &[(copied, "copied 3:7 38 00ab 5")])?;
    let put = Call::Put {
        page: PAGE,
        at: 38,
        bytes: bytes(&rt)?,
    };
    compare(&rt, alloc, &[(put, "put 3:7 38 00ab")])?;
    Ok(())
}

/// The text of a trail.
fn text_of(alloc: Global, instance: u16, trail: &Trail) -> Result<Vec<u8>, OutOfMemory> {
    let mut out = Vec::new(alloc);
    text(alloc, instance, trail, &mut out)?;
    Ok(out)
}

/// Receipts stand behind the entry of their place, those of earlier callers first, in whatever order the accounts come.
fn merged(rt: &HostRuntime) -> Result<Trail, OutOfMemory> {
    let history = vec![in rt.alloc(); checked(6, 1, 2), checked(7, 2, 2)]?;
    let one = vec![in rt.alloc(); unfixed(5, 1, 1), unfixed(7, 1, 3)]?;
    let two = vec![in rt.alloc(); unfixed(5, 2, 1), unfixed(7, 2, 3), unfixed(7, 2, 4)]?;
    let accounts = vec![in rt.alloc(); two, one]?;
    let mut room = Vec::new(rt.alloc());
    room.reserve(7)?;
    Ok(merge(5, history, accounts, room))
}

const ONE_READ: &[u8] =
    b"trail 0 3 2\nE 1 1.1 load 0:0 0\nE 2 1.1 fix 0:0 0 1 5\nR 2 1.2 copied 0:0 38 00000000 1\nR 2 1.3 unfixed 0:0 0 1\nE 3 0.1 clean 0 -\n";

const MERGED: &[u8] =
    b"trail 1 2 5\nR 5 1.1 unfixed 3:7 0 1\nR 5 2.1 unfixed 3:7 0 1\nE 6 1.2 checkpoint 1\nE 7 2.2 checkpoint 1\nR 7 1.3 unfixed 3:7 0 1\nR 7 2.3 unfixed 3:7 0 1\nR 7 2.4 unfixed 3:7 0 1\n";

#[test]
fn a_trail_is_one_line_an_event(rt: HostRuntime) -> Result<(), Fail> {
    assert_eq!(rt;
        text_of(rt.alloc(), 0, &one_read(&rt)?)?.as_slice(),
        ONE_READ
    );
    assert_eq!(rt; text_of(rt.alloc(), 1, &merged(&rt)?)?.as_slice(), MERGED);
    Ok(())
}
