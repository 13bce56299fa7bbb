//! The calls of a pass on the desk, and what the pass keeps between them: the number of its next call, its open fixes and its receipts.
ghost use Rattle.page_ids.specs.declared.limits.TheConstants.{ANSWER_NEED, FIX_NEED, LIMIT};
ghost use Rattle.std.specs.Prelude.{◌≡◌, ◌<◌, ◌≤◌, ◌+◌, ◌*◌, ◌^◌, List, [], Some, None, Ok, OnOk, IfOk, IsSome, IfSome, IfNone, length, slice_get, reverse};
ghost use Rattle.trail.specs.Calls.{newest_fix};
ghost use Rattle.trail.specs.Trails.{Opening};
ghost use Rattle.trail.specs.declared.event.Event.{Event};
ghost use Rattle.frame_words.specs.Plain.{Plain, held_of};
ghost use Rattle.desk.specs.Steps.{row_in};
ghost use Rattle.script_text.specs.Within.{IsInRange};
ghost use Rattle.redo_mark.specs.Logs.{Seen};
ghost use Rattle.trail.specs.Dirt.{log_end};
ghost use Rattle.desk.specs.Base.{Opened};
ghost use Rattle.script_run.specs.Openings.{Start};
ghost use Rattle.script_run.specs.Work.{HasPlayed, StandsBehind, IsBehindIt, Does, noted_at, Along, IsWorkerReady, IsUndisturbed, HasRange, IsRangeOf, RefusesFix, given_at, Ending};
ghost use Rattle.script_run.specs.Workers.{working};

use desk::{CallErr, Caller, CleanErr, Desk, FixErr, Granted, PutErr, dirty_pages_are_few};
use frame_words::{Frames, PlainFrames};
use page_disk::PageDisk;
use page_ids::{Bytes, OutOfMemory, PageId};
use redo_mark::{Redo, RedoDisk};
use script_text::script::Command;
use std::alloc::Global;
use trail::{Call, Cause, Held, Note, Receipt, dirty_pages_are_apart};

/// What a pass has done so far.
#[derive(Drop)]
pub struct Pass {
    pub(crate) pass: u32,
    pub(crate) next: u32,
    /// The open fixes, the newest last.
    pub(crate) fixed: Vec<Held>,
    /// The receipts, the newest last.
    account: Vec<Receipt>,
}

/// Copies bytes of the image in a frame, and gives the frame's clock beside them.
fn copied(
    alloc: Global,
    frames: &mut PlainFrames,
    frame: u32,
    at: u32,
    len: u32,
) -> Result<(Bytes, u64), OutOfMemory>
    requires rest { IsUndisturbed frames.old frame }
    requires range { HasRange (row_in frames.old.rows frame).image at len }
    ensures frames { frames.new ≡ frames.old }
    ensures long { IfOk result (λ r. length r.0 ≡ len) }
    ensures bytes { IfOk result (λ r. IsRangeOf (row_in frames.old.rows frame).image at len r.0) }
    ensures clock { IfOk result (λ r. r.1 ≡ (row_in frames.old.rows frame).clock) }
{
    let mut bytes = vec![in alloc; 0; len as usize]?;
    let Some(image) = frames.image(frame) else {
        unreachable!()
    };
    image.copy_out(at, bytes.as_mut_slice());
    let clock = frames.look(frame).clock();
    Ok((Bytes::of(bytes), clock))
}

/// The grant in the answer of a fix; none where it was refused. Want of memory is no answer.
fn grant_in(answer: Result<Granted, FixErr>) -> Result<Option<Granted>, OutOfMemory>
    ensures granted { IfOk result (λ granted. IfSome granted (λ grant. answer ≡ Ok grant)) }
    ensures refused { IfOk result (λ granted. granted ≡ None → RefusesFix answer) }
{
    match answer {
        Ok(granted) => Ok(Some(granted)),
        Err(FixErr::OutOfMemory) => Err(OutOfMemory),
        Err(FixErr::NoSuchPage { .. }) => Ok(None),
        Err(FixErr::HoldFull { .. }) => Ok(None),
        Err(FixErr::AllFixed { .. }) => Ok(None),
        Err(FixErr::RedoFault { .. }) => Ok(None),
        Err(FixErr::DiskFault { .. }) => Ok(None),
        Err(FixErr::BadPage(_)) => Ok(None),
    }
}

/// Gives a fix of a frame back.
fn let_go(frames: &mut PlainFrames, frame: u32)
    requires rest { IsUndisturbed frames.old frame }
    requires held { 0 < held_of (row_in frames.old.rows frame) }
    ensures { frames.new ≡ given_at frames.old frame }
{
    frames.unhold(frame);
    let _found = frames.leave(frame);
}

impl Pass {
    /// A pass that did nothing yet.
    pub fn new(alloc: Global, pass: u32) -> Pass
        ensures { working result ≡ record { pass = pass; next = 1; fixed = []; account = [] } }
    {
        Pass {
            pass,
            next: 1,
            fixed: Vec::new(alloc),
            account: Vec::new(alloc),
        }
    }

    /// The receipts that it left, the oldest first.
    pub fn into_account(self) -> Vec<Receipt>
        ensures { reverse result.items ≡ (working self).account }
    {
        let Pass {
            pass: _,
            next: _,
            fixed: _,
            account,
        } = self;
        account
    }

    /// Fixes a page. A refusal is an answer too.
    pub(crate) fn fix<D: PageDisk, R: RedoDisk>(
        &mut self,
        desk: &mut Desk<D>,
        frames: &mut PlainFrames,
        redo: &mut Redo<R>,
        page: PageId,
        now: u64,
    ) -> Result<(), OutOfMemory>
        requires places { desk.old.state.config.first + length desk.old.state.history + FIX_NEED ≤ LIMIT }
        requires number { self.old.next + 1 < 2 ^ 32 }
        requires ready { IsWorkerReady D.seen desk.old.state frames.old (reverse self.old.fixed.items) }
        requires known { log_end desk.old.state.history ≤ redo.old.seen.end }
        ensures along { OnOk result (Along D.seen 1
            desk.old.state desk.new.state frames.old frames.new redo.old.seen redo.new.seen (working self.old) (working self.new)) }
        ensures done { OnOk result ((o : Opening) (start : Start) (past : List Event)
            → HasPlayed D.seen o start desk.old.state redo.old.seen (working self.old) past []
            → StandsBehind D.seen o start desk.old.state frames.old
            → Does D.seen o start desk.new.state redo.new.seen (working self.new) past (Command.Fix page now)) }
        ensures opening { redo.new.opening ≡ redo.old.opening }
    {
        self.fixed.reserve(1)?;
        let number = self.next;
        let held = self.fixed.len() as u32;
        let by = Caller {
            pass: self.pass,
            number,
        };
        let answer = desk.fix_at(frames, redo, by, held, page, now);
        let granted = grant_in(answer)?;
        self.next = number + 1;
        if let Some(Granted { frame, .. }) = granted {
            self.fixed.push_reserved(Held {
                page,
                frame,
                number,
            });
        }
        Ok(())
    }

    /// Leaves the receipt of a call, at the desk's mark.
    fn note(&mut self, place: u64, note: Note) -> Result<(), OutOfMemory>
        requires number { self.old.next + 1 < 2 ^ 32 }
        ensures noted { OnOk result (working self.new ≡ noted_at place (working self.old) note) }
        ensures fixed { self.new.fixed ≡ self.old.fixed }
    {
        let number = self.next;
        let receipt = Receipt {
            place,
            caller: self.pass,
            number,
            note,
        };
        if self.account.push(receipt).is_err() {
            return Err(OutOfMemory);
        }
        self.next = number + 1;
        Ok(())
    }

    /// Leaves the receipt of a put on a page that it doesn't hold.
    fn note_unheld_put(
        &mut self,
        place: u64,
        page: PageId,
        at: u32,
        bytes: &[u8],
    ) -> Result<(), OutOfMemory>
        requires number { self.old.next + 1 < 2 ^ 32 }
        ensures noted { OnOk result (working self.new
            ≡ noted_at place (working self.old) (Note.Refused (Call.Put page at bytes.now) Cause.Unheld)) }
        ensures fixed { self.new.fixed ≡ self.old.fixed }
    {
        let alloc = *self.account.allocator();
        let bytes = Bytes::of(Vec::from_slice(alloc, bytes)?);
        let call = Call::Put { page, at, bytes };
        let cause = Cause::Unheld;
        self.note(place, Note::Refused { call, cause })
    }

    /// Where the newest fix of the page stands.
    fn newest(&self, page: PageId) -> Option<usize>
        ensures some { IfSome result (λ at. (at < length self.now.fixed.items) × (slice_get self.now.fixed.items at ≡ newest_fix (reverse self.now.fixed.items) page) × IsSome (newest_fix (reverse self.now.fixed.items) page)) }
        ensures none { IfNone result (newest_fix (reverse self.now.fixed.items) page ≡ None) }
    {
        let mut at = self.fixed.len();
        while at > 0 {
            at -= 1;
            let held = self.fixed[at];
            if held.page == page {
                return Some(at);
            }
        }
        None
    }

    /// Reads bytes of a page that it holds.
    pub(crate) fn read<D: PageDisk>(
        &mut self,
        alloc: Global,
        desk: &Desk<D>,
        frames: &mut PlainFrames,
        page: PageId,
        at: u32,
        len: u32,
    ) -> Result<(), OutOfMemory>
        requires places { desk.now.state.config.first + length desk.now.state.history < 2 ^ 64 }
        requires number { self.old.next + 1 < 2 ^ 32 }
        requires ready { IsWorkerReady D.seen desk.now.state frames.old (reverse self.old.fixed.items) }
        requires range { IsInRange desk.now.state.config.page (Command.Read page at len) }
        ensures along { OnOk result ((log : Seen) → Along D.seen 1
            desk.now.state desk.now.state frames.old frames.new log log (working self.old) (working self.new)) }
        ensures done { OnOk result ((o : Opening) (start : Start) (log : Seen) (past : List Event)
            → HasPlayed D.seen o start desk.now.state log (working self.old) past []
            → StandsBehind D.seen o start desk.now.state frames.old
            → Does D.seen o start desk.now.state log (working self.new) past (Command.Read page at len)) }
    {
        let place = desk.mark();
        let Some(newest) = self.newest(page) else {
            let call = Call::Read { page, at, len };
            let cause = Cause::Unheld;
            return self.note(place, Note::Refused { call, cause });
        };
        let held = self.fixed[newest];
        let Ok((bytes, clock)) = copied(alloc, frames, held.frame, at, len) else {
            return Err(OutOfMemory);
        };
        self.note(
            place,
            Note::Copied {
                page,
                at,
                bytes,
                clock,
            },
        )
    }

    /// Gives back the newest fix of a page.
    pub(crate) fn unfix<D: PageDisk>(
        &mut self,
        desk: &Desk<D>,
        frames: &mut PlainFrames,
        page: PageId,
    ) -> Result<(), OutOfMemory>
        requires places { desk.now.state.config.first + length desk.now.state.history < 2 ^ 64 }
        requires number { self.old.next + 1 < 2 ^ 32 }
        requires ready { IsWorkerReady D.seen desk.now.state frames.old (reverse self.old.fixed.items) }
        ensures along { OnOk result ((log : Seen) → Along D.seen 1
            desk.now.state desk.now.state frames.old frames.new log log (working self.old) (working self.new)) }
        ensures done { OnOk result ((o : Opening) (start : Start) (log : Seen) (past : List Event)
            → HasPlayed D.seen o start desk.now.state log (working self.old) past []
            → StandsBehind D.seen o start desk.now.state frames.old
            → Does D.seen o start desk.now.state log (working self.new) past (Command.Unfix page)) }
    {
        let place = desk.mark();
        let Some(at) = self.newest(page) else {
            let call = Call::Unfix { page };
            let cause = Cause::Unheld;
            return self.note(place, Note::Refused { call, cause });
        };
        let held = self.fixed[at];
        let frame = held.frame;
        let fix = held.number;
        if self
            .note(place, Note::Unfixed { page, frame, fix })
            .is_err()
        {
            return Err(OutOfMemory);
        }
        let_go(frames, held.frame);
        let _held = self.fixed.remove(at);
        Ok(())
    }

    /// Changes bytes of a page that it holds. A refusal is an answer too.
    pub(crate) fn put<D: PageDisk, R: RedoDisk>(
        &mut self,
        desk: &mut Desk<D>,
        frames: &mut PlainFrames,
        redo: &mut Redo<R>,
        page: PageId,
        at: u32,
        bytes: &[u8],
    ) -> Result<(), OutOfMemory>
        requires places { desk.old.state.config.first + length desk.old.state.history + ANSWER_NEED ≤ LIMIT }
        requires number { self.old.next + 1 < 2 ^ 32 }
        requires ready { IsWorkerReady D.seen desk.old.state frames.old (reverse self.old.fixed.items) }
        requires range { IsInRange desk.old.state.config.page (Command.Put page at bytes.now) }
        requires known { log_end desk.old.state.history ≤ redo.old.seen.end }
        ensures along { OnOk result (Along D.seen 1
            desk.old.state desk.new.state frames.old frames.new redo.old.seen redo.new.seen (working self.old) (working self.new)) }
        ensures done { OnOk result ((o : Opening) (start : Start) (past : List Event)
            → HasPlayed D.seen o start desk.old.state redo.old.seen (working self.old) past []
            → Does D.seen o start desk.new.state redo.new.seen (working self.new) past
            (Command.Put page at bytes.now)) }
        ensures opening { redo.new.opening ≡ redo.old.opening }
    {
        let number = self.next;
        if self.newest(page).is_none() {
            return self.note_unheld_put(desk.mark(), page, at, bytes);
        }
        let by = Caller {
            pass: self.pass,
            number,
        };
        match desk.put_at(frames, redo, by, page, at, bytes) {
            Ok(_) => {
                self.next = number + 1;
                Ok(())
            }
            Err(PutErr::OutOfMemory) => Err(OutOfMemory),
            Err(PutErr::LogSpent { .. }) => {
                self.next = number + 1;
                Ok(())
            }
        }
    }

    /// Writes dirty pages, the oldest first, at most so many. A refusal is an answer too.
    pub(crate) fn clean<D: PageDisk, R: RedoDisk>(
        &mut self,
        desk: &mut Desk<D>,
        frames: &mut PlainFrames,
        redo: &mut Redo<R>,
        bound: u32,
    ) -> Result<(), OutOfMemory>
        requires places { desk.old.state.config.first + 2 * length desk.old.state.history + 16385 ≤ LIMIT }
        requires number { self.old.next + 1 < 2 ^ 32 }
        requires ready { IsWorkerReady D.seen desk.old.state frames.old (reverse self.old.fixed.items) }
        requires range { IsInRange desk.old.state.config.page (Command.Clean bound) }
        requires known { log_end desk.old.state.history ≤ redo.old.seen.end }
        ensures along { OnOk result (Along D.seen 1
            desk.old.state desk.new.state frames.old frames.new redo.old.seen redo.new.seen (working self.old) (working self.new)) }
        ensures done { OnOk result ((o : Opening) (start : Start) (past : List Event)
            → HasPlayed D.seen o start desk.old.state redo.old.seen (working self.old) past []
            → Does D.seen o start desk.new.state redo.new.seen (working self.new) past (Command.Clean bound)) }
        ensures opening { redo.new.opening ≡ redo.old.opening }
    {
        dirty_pages_are_few();
        dirty_pages_are_apart();
        let number = self.next;
        let by = Caller {
            pass: self.pass,
            number,
        };
        match desk.clean_at(frames, redo, by, bound, false) {
            Ok(_) => {
                self.next = number + 1;
                Ok(())
            }
            Err(CleanErr::OutOfMemory) => Err(OutOfMemory),
            Err(CleanErr::RedoFault { .. }) => {
                self.next = number + 1;
                Ok(())
            }
            Err(CleanErr::DiskFault { .. }) => {
                self.next = number + 1;
                Ok(())
            }
        }
    }

    /// Asks from where a redo would have to begin.
    pub(crate) fn checkpoint<D: PageDisk, R: RedoDisk>(
        &mut self,
        desk: &mut Desk<D>,
        redo: &Redo<R>,
    ) -> Result<(), OutOfMemory>
        requires places { desk.old.state.config.first + length desk.old.state.history + ANSWER_NEED ≤ LIMIT }
        requires number { self.old.next + 1 < 2 ^ 32 }
        requires known { log_end desk.old.state.history ≤ redo.now.seen.end }
        ensures along { OnOk result ((frames : Plain) → Along D.seen 1
            desk.old.state desk.new.state frames frames redo.now.seen redo.now.seen (working self.old) (working self.new)) }
        ensures done { OnOk result ((o : Opening) (start : Start) (past : List Event)
            → HasPlayed D.seen o start desk.old.state redo.now.seen (working self.old) past []
            → Does D.seen o start desk.new.state redo.now.seen (working self.new) past Command.Checkpoint) }
    {
        let number = self.next;
        let by = Caller {
            pass: self.pass,
            number,
        };
        match desk.check_at(redo, by) {
            Ok(_) => {
                self.next = number + 1;
                Ok(())
            }
            Err(CallErr::OutOfMemory) => Err(OutOfMemory),
        }
    }

    /// Gives back the newest of its fixes.
    pub(crate) fn give_back<D: PageDisk>(
        &mut self,
        desk: &Desk<D>,
        frames: &mut PlainFrames,
    ) -> Result<(), OutOfMemory>
        requires places { desk.now.state.config.first + length desk.now.state.history < 2 ^ 64 }
        requires number { self.old.next + 1 < 2 ^ 32 }
        requires some { 0 < length self.old.fixed.items }
        requires ready { IsWorkerReady D.seen desk.now.state frames.old (reverse self.old.fixed.items) }
        ensures ready { OnOk result (IsWorkerReady D.seen desk.now.state frames.new (reverse self.new.fixed.items)) }
        ensures behind { OnOk result ((o : Opened) → IsBehindIt D.seen o desk.now.state frames.old
            → IsBehindIt D.seen o desk.now.state frames.new) }
        ensures fewer { OnOk result (length self.new.fixed.items + 1 ≡ length self.old.fixed.items) }
        ensures next { OnOk result (self.new.next ≡ self.old.next + 1) }
        ensures pass { OnOk result (self.new.pass ≡ self.old.pass) }
        ensures done { OnOk result ((o : Opening) (start : Start) (log : Seen) (past : List Event) (commands : List Command)
            → Ending D.seen o start desk.now.state log (working self.old) past commands
            → Ending D.seen o start desk.now.state log (working self.new) past commands) }
    {
        let place = desk.mark();
        let Some(held) = self.fixed.pop() else {
            unreachable!()
        };
        let page = held.page;
        let frame = held.frame;
        let fix = held.number;
        self.note(place, Note::Unfixed { page, frame, fix })?;
        let_go(frames, frame);
        Ok(())
    }
}
