//! The top call.
ghost use Rattle.std.specs.Prelude.{◌≡◌, ◌≢◌, ◌≤◌, ◌<◌, ◌+◌, ◌*◌, ◌++◌, ◌∷◌, ◌↔◌, ◌⊎◌, [], ℕ, List, Option, Some, None, Err, IfOk, IfErr, OnOk, IsTrue, IsSome, IsSomeAnd, IfSome, Bool, ⊤, ◌^◌, true, false, length, map, reverse, string_bytes, take};
ghost use Rattle.std.specs.List.{list_any};
ghost use Rattle.page_ids.specs.Size.{page_bytes};
ghost use Rattle.page_ids.specs.Faults.{Rose};
ghost use Rattle.page_ids.specs.declared.limits.TheConstants.{CLOCK_BITS, LAST_LSN};
ghost use Rattle.page_disk.specs.Shelves.{unasked};
ghost use Rattle.page_disk.specs.declared.shelf.FaultAt.{FaultAt};
ghost use Rattle.redo_mark.specs.Device.{IsAsOpened};
ghost use Rattle.redo_mark.specs.Logs.{IsLater, IsKept};
ghost use Rattle.trail.specs.Merging.{IsMerged};
ghost use Rattle.trail.specs.Spelling.{trail_text};
ghost use Rattle.trail.specs.Dirt.{dirty, log_end};
ghost use Rattle.desk.specs.Base.{Opened};
ghost use Rattle.desk.specs.Logged.{IsLogged};
ghost use Rattle.script_text.specs.Plan.{Plan, commands_of};
ghost use Rattle.script_text.specs.Within.{IsWithin};
ghost use Rattle.script_text.specs.Verdict.{IsScript, IsBadScript};
ghost use Rattle.script_run.specs.Ends.{IsTakenWithin};
ghost use Rattle.script_run.specs.Work.{IsWorkerReady, IsBehindIt};
ghost use Rattle.script_run.specs.Runs.{IsFlushFault, IsFlushedWith, IsClosingClean, IsEndedRun, IsEnded, IsLongLog, IsLogAsOpened, HasEnded, IsRunStatus, IsSilent, IsNoScript, AreSynced};
ghost use Rattle.script_run.specs.Runs.{AreTextsWritten, IsWrittenInPart, AreRun, IsAskedOnce, disk_as, log_as, is_refused, has_refusal};

use crate::ends::{NoScript, take_script, write_all};
use crate::outcome::{Outcome, bare};
use crate::pass::Pass;
use crate::worker::work;
use desk::{Caller, CleanErr, Desk, clean_disk_holds_the_values, dirty_pages_are_few};
use frame_words::PlainFrames;
use page_disk::{FaultAt, PageDisk, Shelf, Sink, Source};
use page_ids::{LAST_LSN, OutOfMemory};
use redo_mark::{Redo, RedoDisk, RedoEnd};
use script_text::{Program, Script, WordsErr, command_of};
use std::alloc::Global;
use trail::{
    Entry, Event, Kind, Note, Receipt, Trail, a_clean_history_is_durable, dirty_pages_are_apart,
    merge, one_trail_is_merged, text,
};

/// The closing flush takes all dirty pages: an instance has at most so many frames.
const ALL: u32 = 16_384;

/// A script that was run: its trail, its disk, its log, and the fault of the closing flush.
#[derive(Drop)]
struct Ended<D: PageDisk, R: RedoDisk> {
    trail: Trail,
    disk: D,
    redo: RedoEnd<R>,
    fault: Option<FaultAt>,
}

/// A device's fault in the closing flush of instance 0.
fn fault_of(log: bool, before: u64, after: u64) -> FaultAt
    ensures { result ≡ record { log = log; instance = 0; before = before; after = after } }
{
    FaultAt {
        log,
        instance: 0,
        before,
        after,
    }
}

/// Whether the event is a refusal.
fn is_refusal(event: &Event) -> bool
    ensures { result ≡ is_refused event.now }
{
    match event {
        Event::Entry(entry) => matches!(entry.kind, Kind::Refused { .. }),
        Event::Receipt(receipt) => matches!(receipt.note, Note::Refused { .. }),
    }
}

/// Whether an event is a refusal.
fn has_refusal(events: &[Event]) -> bool
    ensures { result ≡ list_any is_refused events.now }
{
    events.iter().any(|event| is_refusal(event))
}

/// Cleans as caller 0 with a sync; answers the fault, where there was one.
fn close<D: PageDisk, R: RedoDisk>(
    desk: &mut Desk<D>,
    frames: &mut PlainFrames,
    redo: &mut Redo<R>,
) -> Result<Option<FaultAt>, OutOfMemory>
    requires places { desk.old.state.config.first + length desk.old.state.history + length (dirty desk.old.state.history) + 1 < 2 ^ CLOCK_BITS }
    requires ready { IsWorkerReady D.seen desk.old.state frames.old [] }
    requires frames { desk.old.state.config.frames ≤ 8192 }
    requires known { log_end desk.old.state.history ≤ redo.old.seen.end }
    ensures closed { IfOk result (λ fault. IsClosingClean desk.old.state desk.new.state fault) }
    ensures fault { IfOk result (λ fault. IfSome fault (λ f. IsFlushedWith (D.seen desk.old.state.disk).faults
        (D.seen desk.new.state.disk).faults redo.old.seen.faults redo.new.seen.faults f)) }
    ensures logged { IsLogged redo.old.seen desk.old.state.history → IsLogged redo.new.seen desk.new.state.history }
    ensures known { log_end desk.new.state.history ≤ redo.new.seen.end }
    ensures later { IsLater redo.old.seen redo.new.seen }
    ensures opening { redo.new.opening ≡ redo.old.opening }
    ensures counted { (D.seen desk.old.state.disk).faults ≤ (D.seen desk.new.state.disk).faults }
    ensures spaces { (space : ℕ) → (D.seen desk.new.state.disk).spaces space ≡ (D.seen desk.old.state.disk).spaces space }
    ensures behind { (o : Opened) → IsBehindIt D.seen o desk.old.state frames.old
        → IsBehindIt D.seen o desk.new.state frames.new }
    ensures synced { IfOk result (λ fault. fault ≡ None → IsTrue (D.seen desk.new.state.disk).synced) }
    ensures whole { IfOk result (λ fault. fault ≡ None → redo.new.seen.durable ≡ redo.new.seen.end) }
{
    dirty_pages_are_apart();
    let by = Caller { pass: 0, number: 1 };
    match desk.clean_at(frames, redo, by, ALL, true) {
        Ok(_) => Ok(None),
        Err(CleanErr::OutOfMemory) => Err(OutOfMemory),
        Err(CleanErr::RedoFault { before, after }) => Ok(Some(fault_of(true, before, after))),
        Err(CleanErr::DiskFault { before, after }) => Ok(Some(fault_of(false, before, after))),
    }
}

/// The trail of a history and of the receipts of its one pass.
fn trail_of(
    alloc: Global,
    first: u64,
    history: Vec<Entry>,
    account: Vec<Receipt>,
) -> Result<Trail, OutOfMemory>
    ensures first { IfOk result (λ trail. trail.first ≡ first) }
    ensures merged { IfOk result (λ trail. IsMerged history.items account.items trail.events) }
{
    let mut room = Vec::new(alloc);
    room.reserve(history.len() + account.len())?;
    let mut accounts = Vec::new(alloc);
    accounts.push(account)?;
    Ok(merge(first, history, accounts, room))
}

/// Runs a script on a disk and a log: thread 1's calls, then the closing flush, and the trail of both.
fn run_on<D: PageDisk, R: RedoDisk>(
    alloc: Global,
    script: &Script,
    disk: D,
    log: R,
) -> Result<Ended<D, R>, OutOfMemory>
    requires size { (D.seen disk).size ≡ page_bytes script.now.config.page }
    requires script { IsWithin script.now }
    requires limit { script.now.config.lsn + (R.seen log).opened ≤ LAST_LSN }
    requires opened { IsAsOpened (R.seen log).opened (R.seen log).told }
    ensures run { IfOk result (λ e. IsEndedRun (disk_as (D.seen disk)) (log_as (R.seen log)) D.seen R.seen
        script.now e.fault (e.trail ∷ []) (e.disk ∷ []) (Some e.redo)) }
    ensures fault { IfOk result (λ e. IfSome e.fault (λ f. IsFlushFault f)) }
    ensures synced { IfOk result (λ e. e.fault ≡ None → IsTrue (D.seen e.disk).synced) }
{
    let config = script.config();
    let mut redo = match Redo::start(alloc, log, config.lsn) {
        Ok(redo) => redo,
        Err(_) => return Err(OutOfMemory),
    };
    let mut desk = match Desk::new(alloc, config, 0, disk) {
        Ok(desk) => desk,
        Err(_) => return Err(OutOfMemory),
    };
    let mut frames = desk.blank_frames(alloc)?;
    let mut pass = Pass::new(alloc, 1);
    work(
        &mut pass,
        alloc,
        &mut desk,
        &mut frames,
        &mut redo,
        script.commands(),
    )?;
    dirty_pages_are_few();
    let fault = close(&mut desk, &mut frames, &mut redo)?;
    let (disk, history) = desk.end();
    let redo = redo.close();
    let trail = trail_of(alloc, config.first, history, pass.into_account())?;
    one_trail_is_merged();
    dirty_pages_are_apart();
    a_clean_history_is_durable();
    clean_disk_holds_the_values::<D>();
    Ok(Ended {
        trail,
        disk,
        redo,
        fault,
    })
}

/// The trail and the disk in lists.
fn listed<D: PageDisk>(
    alloc: Global,
    trail: Trail,
    disk: D,
) -> Result<(Vec<Trail>, Vec<D>), OutOfMemory>
    ensures trails { IfOk result (λ r. r.0.items ≡ trail ∷ []) }
    ensures disks { IfOk result (λ r. r.1.items ≡ disk ∷ []) }
{
    let mut trails = Vec::new(alloc);
    trails.push(trail)?;
    let mut disks = Vec::new(alloc);
    disks.push(disk)?;
    Ok((trails, disks))
}

/// Writes a trail's text, and answers the status of its run.
fn write_text<K: Sink>(out: &mut K, text: &[u8], refused: bool) -> u8
    ensures statuses { (result ≡ 0) ⊎ (result ≡ 1) ⊎ (result ≡ 5) }
    ensures written { (result ≡ 0) ⊎ (result ≡ 1) → (held : List ℕ) → K.held out.old ≡ Some held → K.held out.new ≡ Some (held ++ text.now) }
    ensures refused { (result ≡ 0) ⊎ (result ≡ 1) → (result ≡ 1) ↔ IsTrue refused }
    ensures cut { result ≡ 5 → Rose (K.fault_count out.old) (K.fault_count out.new) × ((held : List ℕ) → K.held out.old ≡ Some held → (n : ℕ) × (K.held out.new ≡ Some (held ++ take n text.now))) }
{
    if write_all(out, text).is_err() {
        return 5;
    }
    if refused { 1 } else { 0 }
}

/// Writes the trail's text, and answers the trail with the disk and the log.
fn told<D: PageDisk, R: RedoDisk, K: Sink>(
    alloc: Global,
    out: &mut K,
    trail: Trail,
    disk: D,
    redo: RedoEnd<R>,
) -> Outcome<D, R>
    ensures statuses { (result.status ≡ 0) ⊎ (result.status ≡ 1) ⊎ (result.status ≡ 5) ⊎ (result.status ≡ 7) }
    ensures line { result.line ≡ 0 }
    ensures fault { result.fault ≡ None }
    ensures given { result.status ≢ 7 → (result.trails.items ≡ trail ∷ []) × (result.disks.items ≡ disk ∷ [])
        × (result.redo ≡ Some redo) }
    ensures bare { result.status ≡ 7 → (result.trails.items ≡ []) × (result.disks.items ≡ []) × (result.redo ≡ None)
        × (out.new ≡ out.old) }
    ensures written { (result.status ≡ 0) ⊎ (result.status ≡ 1) → AreTextsWritten (K.held out.old) (K.held out.new) (trail ∷ []) }
    ensures refused { (result.status ≡ 0) ⊎ (result.status ≡ 1) → (result.status ≡ 1) ↔ IsTrue (has_refusal (trail ∷ [])) }
    ensures cut { result.status ≡ 5 → Rose (K.fault_count out.old) (K.fault_count out.new) × IsWrittenInPart (K.held out.old) (K.held out.new) (trail ∷ []) }
{
    let mut written = Vec::new(alloc);
    if text(alloc, 0, &trail, &mut written).is_err() {
        return bare(alloc, 7, 0);
    }
    let refused = has_refusal(trail.events());
    let Ok((trails, disks)) = listed(alloc, trail, disk) else {
        return bare(alloc, 7, 0);
    };
    let status = write_text(out, written.as_slice(), refused);
    Outcome {
        status,
        line: 0,
        fault: None,
        trails,
        disks,
        redo: Some(redo),
    }
}

/// A log that is too long for the script's `lsn`, handed back as it was opened.
fn too_long<D: PageDisk, R: RedoDisk>(alloc: Global, log: R) -> Outcome<D, R>
    ensures status { result.status ≡ 3 }
    ensures line { result.line ≡ 0 }
    ensures fault { result.fault ≡ None }
    ensures bare { (result.trails.items ≡ []) × (result.disks.items ≡ []) }
    ensures redo { IsSomeAnd result.redo (λ r. (r.disk ≡ log) × (r.end ≡ (R.seen log).opened) × (r.durable ≡ (R.seen log).opened)) }
{
    let end = log.end();
    let mut outcome = bare(alloc, 3, 0);
    outcome.redo = Some(RedoEnd {
        disk: log,
        end,
        durable: end,
    });
    outcome
}

/// Runs a script that was read, on the disk that the shelf hands out for instance 0, and its log.
fn run_script<K: Sink, H: Shelf>(
    alloc: Global,
    script: &Script,
    out: &mut K,
    shelf: &mut H,
) -> Outcome<H::Disk, H::Redo>
    requires script { IsWithin script.now }
    ensures statuses { (result.status ≡ 3) ⊎ IsRunStatus result.status }
    ensures line { result.line ≡ 0 }
    ensures opening { result.status ≡ 6 → result.fault ≡ None → Rose (H.seen shelf.old).faults (H.seen shelf.new).faults }
    ensures ended { HasEnded result.status result.fault → IsEndedRun ((H.seen shelf.old).disks 0) (H.seen shelf.old).log H.Disk.seen H.Redo.seen
        script.now result.fault result.trails.items result.disks.items result.redo }
    ensures long { result.status ≡ 3 → IsSomeAnd result.redo (λ r. IsLogAsOpened (H.seen shelf.old).log.told
        H.Redo.seen r × (LAST_LSN < script.now.config.lsn + r.end)) }
    ensures bare { (HasEnded result.status result.fault → ⊥) → (result.trails.items ≡ []) × (result.disks.items ≡ [])
        × (result.fault ≡ None) × (result.status ≢ 3 → result.redo ≡ None) }
    ensures fault { IfSome result.fault (λ f. (result.status ≡ 6) × IsFlushFault f) }
    ensures written { (result.status ≡ 0) ⊎ (result.status ≡ 1) → AreTextsWritten (K.held out.old) (K.held out.new) result.trails.items }
    ensures refused { (result.status ≡ 0) ⊎ (result.status ≡ 1) → (result.status ≡ 1) ↔ IsTrue (has_refusal result.trails.items) }
    ensures cut { result.status ≡ 5 → Rose (K.fault_count out.old) (K.fault_count out.new)
        × IsWrittenInPart (K.held out.old) (K.held out.new) result.trails.items }
    ensures unwritten { (result.status ≡ 3) ⊎ (result.status ≡ 6) ⊎ (result.status ≡ 7) → out.new ≡ out.old }
    ensures asked { (H.seen shelf.old).asked ≡ unasked → (log : Bool)
        × ((H.seen shelf.new).asked ≡ record { config = Some script.now.config; disks = 1; log = log; strayed = false }) }
    ensures synced { HasEnded result.status result.fault → result.fault ≡ None → AreSynced H.Disk.seen result.disks.items }
{
    let config = script.config();
    let Ok(disk) = shelf.disk(config, 0) else {
        return bare(alloc, 6, 0);
    };
    let Ok(log) = shelf.redo(config) else {
        return bare(alloc, 6, 0);
    };
    if LAST_LSN - config.lsn < log.end() {
        return too_long(alloc, log);
    }
    let Ok(
        Ended {
            trail,
            disk,
            redo,
            fault,
        },
    ) = run_on(alloc, script, disk, log)
    else {
        return bare(alloc, 7, 0);
    };
    if fault.is_none() {
        return told(alloc, out, trail, disk, redo);
    }
    match listed(alloc, trail, disk) {
        Ok((trails, disks)) => Outcome {
            status: 6,
            line: 0,
            fault,
            trails,
            disks,
            redo: Some(redo),
        },
        Err(_) => bare(alloc, 7, 0),
    }
}

/// Whether the words are a command that runs a script.
fn judge_words(alloc: Global, words: &[String]) -> Result<(), WordsErr>
    ensures run { OnOk result (AreRun (map string_bytes words.now)) }
    ensures usage { result ≡ Err WordsErr.Usage → AreRun (map string_bytes words.now) → ⊥ }
{
    match command_of(alloc, words) {
        Ok(Program::Run { .. }) => Ok(()),
        Ok(Program::Check) => Err(WordsErr::Usage),
        Err(error) => Err(error),
    }
}

/// Runs the script of a source on the disk and the log of a shelf, and writes the text of the trail.
///
/// The words are those behind the program's name: `run SPACE FILE LOG`. What the statuses say stands at [`Outcome`].
/// Whatever the words, the script's bytes and the devices' answers: the trail is one lawful history of a plain page map, in which
/// thread 1 does what its commands say, each call once and in order. Behind a closing flush that didn't fail the disk holds what the
/// trail says, synced, and the log keeps each change.
pub fn run<R, S: Source, K: Sink, H: Shelf>(
    rt: &R,
    alloc: Global,
    words: &[String],
    script: &mut S,
    out: &mut K,
    shelf: &mut H,
) -> Outcome<H::Disk, H::Redo>
    ensures statuses { result.status ≤ 7 }
    ensures usage { result.status ≡ 2 → AreRun (map string_bytes words.now) → ⊥ }
    ensures usage_only { (AreRun (map string_bytes words.now) → ⊥) → (result.status ≡ 2) ⊎ (result.status ≡ 7) }
    ensures unread { result.status ≡ 2 → (script.new ≡ script.old) × (shelf.new ≡ shelf.old) }
    ensures read_fault { result.status ≡ 4 → Rose (S.fault_count script.old) (S.fault_count script.new) }
    ensures bad_script { result.status ≡ 3 → (((bytes : List ℕ) → S.left script.old ≡ Some bytes → IsBadScript bytes result.line) × (result.redo ≡ None))
        ⊎ IsLongLog (S.left script.old) (H.seen shelf.old).log.told H.Redo.seen result.line result.redo }
    ensures bad_only { (bytes : List ℕ) (n : ℕ) → S.left script.old ≡ Some bytes → IsBadScript bytes n → IsNoScript result.status result.line n }
    ensures line { result.status ≢ 3 → result.line ≡ 0 }
    ensures opening { result.status ≡ 6 → result.fault ≡ None → Rose (H.seen shelf.old).faults (H.seen shelf.new).faults }
    ensures ended { HasEnded result.status result.fault → IsEnded (S.left script.old) ((H.seen shelf.old).disks 0) (H.seen shelf.old).log H.Disk.seen H.Redo.seen
        result.fault result.trails.items result.disks.items result.redo }
    ensures read_whole { HasEnded result.status result.fault → (bytes : List ℕ) → S.left script.old ≡ Some bytes → S.left script.new ≡ Some [] }
    ensures bare { (HasEnded result.status result.fault → ⊥) → (result.trails.items ≡ []) × (result.disks.items ≡ [])
        × (result.fault ≡ None) × (result.status ≢ 3 → result.redo ≡ None) }
    ensures fault { IfSome result.fault (λ f. (result.status ≡ 6) × IsFlushFault f) }
    ensures written { (result.status ≡ 0) ⊎ (result.status ≡ 1) → AreTextsWritten (K.held out.old) (K.held out.new) result.trails.items }
    ensures refused { (result.status ≡ 0) ⊎ (result.status ≡ 1) → (result.status ≡ 1) ↔ IsTrue (has_refusal result.trails.items) }
    ensures cut { result.status ≡ 5 → Rose (K.fault_count out.old) (K.fault_count out.new) × IsWrittenInPart (K.held out.old) (K.held out.new) result.trails.items }
    ensures unwritten { IsSilent result.status → out.new ≡ out.old }
    ensures unasked { (result.status ≡ 4) ⊎ ((result.status ≡ 3) × (result.redo ≡ None)) → shelf.new ≡ shelf.old }
    ensures asked { (H.seen shelf.old).asked ≡ unasked → ((H.seen shelf.new).asked ≡ unasked) ⊎ IsAskedOnce (S.left script.old) (H.seen shelf.new).asked }
    ensures taken { IsTakenWithin 0 1048577 (S.left script.old) (S.left script.new) }
    ensures synced { HasEnded result.status result.fault → result.fault ≡ None → AreSynced H.Disk.seen result.disks.items }
{
    let _rt = rt;
    match judge_words(alloc, words) {
        Ok(()) => (),
        Err(WordsErr::Usage) => return bare(alloc, 2, 0),
        Err(WordsErr::OutOfMemory) => return bare(alloc, 7, 0),
    }
    match take_script(alloc, script) {
        Ok(plan) => run_script(alloc, &plan, out, shelf),
        Err(NoScript::Fault) => bare(alloc, 4, 0),
        Err(NoScript::Bad { line }) => bare(alloc, 3, line),
        Err(NoScript::OutOfMemory) => bare(alloc, 7, 0),
    }
}
