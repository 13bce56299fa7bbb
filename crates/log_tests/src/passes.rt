//! Passes of one log.
ghost use Rattle.std.specs.Prelude.{◌≡◌, IfOk};

use crate::changes::{LOG, SPANS, create_draft, put, put_draft};
use redo_log::{Redo, RedoPass, StartCause};
use redo_mark::{CoverErr, LogSpent, RedoDisk, RedoEnd, RedoMemory, Span, read_change};
use std::alloc::Global;
use std::process::Abort;
use std::sync::Wait;
use std::test::Fail;
use std::thread;
use std::thread::Threads;

/// How many records each of two threads appends.
const ROUNDS: u64 = 20;

/// A log from LSN 8192 on that holds these bytes, on a device of which these calls are to fail.
fn log_of<W: Wait>(
    rt: &W,
    alloc: Global,
    bytes: &[u8],
    failing: &[u64],
) -> Result<(Redo<RedoMemory>, RedoPass), Fail>
    ensures { IfOk result (λ r. r.1.log ≡ r.0.log) }
{
    let disk = RedoMemory::new(
        Vec::from_slice(alloc, bytes)?,
        Vec::from_slice(alloc, failing)?,
    );
    let opened = Redo::start(rt, alloc, disk, 8192)?;
    Ok(opened)
}

/// Ends a log that has these two passes.
fn close<W: Wait>(
    rt: &W,
    alloc: Global,
    redo: Redo<RedoMemory>,
    one: RedoPass,
    two: RedoPass,
) -> Result<RedoEnd<RedoMemory>, Fail>
    requires { (one.log ≡ redo.log) × (two.log ≡ redo.log) }
{
    let mut passes = Vec::new(alloc);
    passes.push(one)?;
    passes.push(two)?;
    Ok(redo.close(rt, passes))
}

#[test]
fn one_cover_serves_both_passes(rt: HostRuntime) -> Result<(), Fail> {
    let alloc = rt.alloc();
    let (redo, mut one) = log_of(&rt, alloc, &[], &[4])?;
    let mut two = redo.pass(&mut one);
    assert_eq!(rt;
        redo.append(&rt, &mut one, put_draft(alloc, 0xab)?),
        Ok(SPANS[0])
    );
    assert_eq!(rt;
        redo.append(&rt, &mut two, create_draft(alloc)?),
        Ok(SPANS[1])
    );
    assert_eq!(rt; redo.durable(&rt, &mut one), 8192);
    assert_eq!(rt; redo.end(&rt, &mut one), 8235);
    assert_eq!(rt; redo.cover(&rt, &mut two, 8215)?.upto(), 8235);
    assert_eq!(rt; redo.cover(&rt, &mut one, 8214)?.upto(), 8235);
    let left = close(&rt, alloc, redo, one, two)?;
    assert_eq!(rt; left.disk.kept(), LOG.as_slice());
    assert_eq!(rt;
        (left.end, left.durable, left.disk.wants()),
        (8235, 8235, 0)
    );
    Ok(())
}

/// Two writes and a sync make the log durable; where one of them fails, the same bytes reach the same places next time.
#[test]
fn a_failed_cover_is_made_again(rt: HostRuntime) -> Result<(), Fail> {
    let alloc = rt.alloc();
    let fault = CoverErr::Fault {
        before: 0,
        after: 1,
    };
    for call in 1..4u64 {
        let (redo, mut one) = log_of(&rt, alloc, &[], &[call])?;
        let mut two = redo.pass(&mut one);
        assert_eq!(rt;
            redo.append(&rt, &mut one, put_draft(alloc, 0xab)?),
            Ok(SPANS[0])
        );
        assert_eq!(rt;
            redo.append(&rt, &mut one, create_draft(alloc)?),
            Ok(SPANS[1])
        );
        assert_eq!(rt;
            redo.cover(&rt, &mut two, 8235).err(),
            Some(fault),
            "at call {call}"
        );
        assert_eq!(rt; redo.durable(&rt, &mut one), 8192, "at call {call}");
        assert_eq!(rt;
            redo.cover(&rt, &mut one, 8193)?.upto(),
            8235,
            "at call {call}"
        );
        let left = close(&rt, alloc, redo, one, two)?;
        assert_eq!(rt; left.disk.kept(), LOG.as_slice(), "at call {call}");
        assert_eq!(rt;
            (left.end, left.durable, left.disk.wants()),
            (8235, 8235, 0),
            "at call {call}"
        );
    }
    Ok(())
}

/// A log that was opened with a record goes on behind it, and an LSN behind the end is refused. What isn't covered is dropped.
#[test]
fn a_log_goes_on_behind_its_opening(rt: HostRuntime) -> Result<(), Fail> {
    let alloc = rt.alloc();
    let (redo, mut one) = log_of(&rt, alloc, &LOG[..22], &[])?;
    let mut two = redo.pass(&mut one);
    assert_eq!(rt; redo.durable(&rt, &mut two), 8214);
    assert_eq!(rt;
        redo.append(&rt, &mut two, create_draft(alloc)?),
        Ok(SPANS[1])
    );
    let beyond = CoverErr::BeyondEnd {
        lsn: 8236,
        end: 8235,
    };
    assert_eq!(rt; redo.cover(&rt, &mut one, 8236).err(), Some(beyond));
    let covered = redo.cover(&rt, &mut two, 8235)?;
    redo.marks().take_in(&mut one, covered);
    assert!(rt; redo.append(&rt, &mut two, create_draft(alloc)?).is_ok());
    let left = close(&rt, alloc, redo, one, two)?;
    assert_eq!(rt; left.disk.kept(), LOG.as_slice());
    assert_eq!(rt; (left.end, left.durable), (8256, 8235));
    Ok(())
}

/// A log with one record, for which 43 bytes are left below the last LSN.
#[test]
fn a_log_is_spent_at_the_last_lsn(rt: HostRuntime) -> Result<(), Fail> {
    let alloc = rt.alloc();
    let end = (1 << 63) - 21;
    let disk = RedoMemory::new(Vec::from_slice(alloc, &LOG[..22])?, Vec::new(alloc));
    let (redo, mut pass) = Redo::start(&rt, alloc, disk, (1 << 63) - 43)?;
    assert_eq!(rt;
        redo.append(&rt, &mut pass, put_draft(alloc, 0xab)?),
        Err(LogSpent { end })
    );
    let last = Span {
        start: end,
        end: 1 << 63,
    };
    assert_eq!(rt; redo.append(&rt, &mut pass, create_draft(alloc)?), Ok(last));
    assert_eq!(rt; redo.cover(&rt, &mut pass, 1 << 63)?.upto(), 1 << 63);
    let disk = RedoMemory::new(Vec::from_slice(alloc, &LOG[..22])?, Vec::new(alloc));
    match Redo::start(&rt, alloc, disk, (1 << 63) - 21) {
        Ok(_) => assert!(rt; false, "a log was opened above the last LSN"),
        Err(error) => assert_eq!(rt; error.cause, StartCause::LogSpent { end: 22 }),
    }
    Ok(())
}

/// Appends records of this byte and covers each. It answers their spans, fewer where it found no memory.
fn work<R: RedoDisk, W: Wait>(
    rt: &W,
    redo: &Redo<R>,
    mut pass: RedoPass,
    alloc: Global,
    byte: u8,
) -> (RedoPass, Vec<Span>)
    requires { pass.log ≡ redo.now.log }
    ensures { result.0.log ≡ redo.entry.now.log }
{
    let mut spans = Vec::new(alloc);
    for _ in 0..ROUNDS {
        let Ok(draft) = put_draft(alloc, byte) else {
            return (pass, spans);
        };
        let Ok(span) = redo.append(rt, &mut pass, draft) else {
            return (pass, spans);
        };
        if redo.cover(rt, &mut pass, span.end).is_err() || spans.push(span).is_err() {
            return (pass, spans);
        }
    }
    (pass, spans)
}

/// Two threads append and cover side by side.
fn side_by_side<R: RedoDisk, W: Threads + Wait + Sync>(
    rt: &W,
    redo: &Redo<R>,
    alloc: Global,
    first: RedoPass,
    second: RedoPass,
) -> ((RedoPass, Vec<Span>), (RedoPass, Vec<Span>))
    requires { (first.log ≡ redo.now.log) × (second.log ≡ redo.now.log) }
    ensures { (result.0.0.log ≡ redo.entry.now.log) × (result.1.0.log ≡ redo.entry.now.log) }
{
    thread::join(
        rt,
        move ||
            requires { first.log ≡ redo.now.log }
            ensures { result.0.log ≡ redo.entry.now.log }
        { work(rt, redo, first, alloc, 0x11) },
        move ||
            requires { second.log ≡ redo.now.log }
            ensures { result.0.log ≡ redo.entry.now.log }
        { work(rt, redo, second, alloc, 0x22) },
    )
}

/// Each span has a record of this byte on the device.
fn check(
    rt: &impl Abort,
    alloc: Global,
    kept: &[u8],
    spans: &[Span],
    byte: u8,
) -> Result<(), Fail> {
    assert_eq!(rt; spans.len() as u64, ROUNDS);
    for span in spans {
        assert!(rt; 8192 <= span.start && span.start < 1 << 63);
        let at = (span.start - 8192) as usize;
        assert!(rt; at <= kept.len());
        assert_eq!(rt;
            read_change(alloc, &kept[at..], span.start)?,
            (put(alloc, byte)?, *span)
        );
    }
    Ok(())
}

/// Each record of two threads stands where its span says.
#[test]
fn two_threads_share_a_log(rt: HostRuntime) -> Result<(), Fail> {
    let alloc = rt.alloc();
    let (redo, mut first) = log_of(&rt, alloc, &[], &[])?;
    let second = redo.pass(&mut first);
    let ((one, firsts), (two, seconds)) = side_by_side(&rt, &redo, alloc, first, second);
    let left = close(&rt, alloc, redo, one, two)?;
    check(&rt, alloc, left.disk.kept(), firsts.as_slice(), 0x11)?;
    check(&rt, alloc, left.disk.kept(), seconds.as_slice(), 0x22)?;
    assert_eq!(rt; (left.end, left.durable), (9072, 9072));
    Ok(())
}
