//! The fix: a page that is not resident is read into a frame, and a fix is granted or refused.
ghost use Rattle.std.specs.Prelude.{◌≡◌, ◌<◌, ◌≤◌, ◌+◌, ◌^◌, ℕ, Some, None, Err, OnOk, OnErr, IfErr, IfSome, length, false};
ghost use Rattle.page_ids.specs.Content.{Content};
ghost use Rattle.page_ids.specs.declared.limits.TheConstants.{CLOCK_BITS, MOST_FIXES};
ghost use Rattle.page_disk.specs.Disks.{pages_in, IsInside};
ghost use Rattle.trail.specs.Trails.{mark};
ghost use Rattle.trail.specs.History.{home};
ghost use Rattle.trail.specs.Dirt.{is_dirty};
ghost use Rattle.frame_words.specs.Seen.{KeepsRoom};
ghost use Rattle.desk.specs.Answers.{IsAsked, IsRefusable, Refuses, MayTake, IsNextFrame, Loads, Fixes};
ghost use Rattle.desk.specs.Base.{Opened};
ghost use Rattle.desk.specs.Behind.{IsBehind};
ghost use Rattle.desk.specs.Fixing.{fix_err_of};
ghost use Rattle.desk.specs.Loads.{MayFix, IsRead, IsInImage, IsOneMore};
ghost use Rattle.desk.specs.Logged.{IsLoggedCause};
ghost use Rattle.desk.specs.Making.{shown};
ghost use Rattle.desk.specs.Moments.{LogSeen, moment, moment_of, HasRoomFor, EmptiesHand, IsAtRest, IsBetweenSteps, IsReady, Keeps};
ghost use Rattle.desk.specs.Reads.{IsReadRefusal};
ghost use Rattle.desk.specs.Steps.{AppendsEntry, OnlyReads, next_entry, IsHit, IsLoadRefusal};
ghost use Rattle.desk.specs.Tied.{AreTied};

use crate::calls::{Caller, FixErr, FrameErr, Granted};
use crate::desk::Desk;
use crate::parts::{ReadErr, read_page};
use frame_words::Frames;
use page_disk::PageDisk;
use page_ids::{MOST_FIXES, OutOfMemory, PageId};
use redo_mark::{Redo, RedoDisk};
use std::alloc::AllocError;
use trail::{Call, Cause, Kind};

impl<D: PageDisk> Desk<D> {
    /// How many pages the space has, 0 where there is no such space.
    pub(crate) fn pages(&self, space: u32) -> u32
        ensures { result ≡ pages_in (D.seen self.now.state.disk).spaces space }
    {
        self.disk.pages(space).unwrap_or(0)
    }

    /// The frame that a page is in.
    pub(crate) fn home_of(&self, page: PageId) -> Option<u32>
        ensures home { result ≡ home self.now.state.history page }
        ensures below { IfSome result (λ f. f < self.now.state.config.frames) }
        ensures clean { result ≡ None → is_dirty self.now.state.history page ≡ false }
    {
        self.lists.home(page)
    }

    /// Makes room for the entries of a fix.
    fn reserve_fix(&mut self) -> Result<(), AllocError>
        ensures room { OnOk result (4 ≤ self.new.room) }
        ensures same { self.new.state ≡ self.old.state }
    {
        self.lists.reserve(4)
    }

    /// Reads a page into a frame that has none.
    fn read_in<F: Frames>(
        &mut self,
        frames: &mut F,
        page: PageId,
        frame: u32,
    ) -> Result<(), ReadErr>
        requires inside { IsInside (D.seen self.old.state.disk).spaces page }
        requires next { IsNextFrame self.old.state frame }
        requires tied { AreTied D.seen (F.seen frames.old) self.old.state }
        ensures ok { OnOk result (IsRead ((D.seen self.old.state.disk).told page) (F.seen frames.old) (F.seen frames.new) page frame) }
        ensures err { OnErr result (F.seen frames.new ≡ F.seen frames.old) }
        ensures refused { IfErr result (λ e. IsReadRefusal ((D.seen self.old.state.disk).told page)
            (D.seen self.old.state.disk).faults (D.seen self.new.state.disk).faults page e) }
        ensures reads { OnlyReads D.seen self.old.state self.new.state }
        ensures room { self.new.room ≡ self.old.room }
        ensures fixes { KeepsRoom (F.room frames.old) (F.room frames.new) }
        ensures tied { AreTied D.seen (F.seen frames.new) self.new.state }
        ensures behind { (o : Opened) → IsBehind D.seen o self.old.state (F.seen frames.old)
            → IsBehind D.seen o self.new.state (F.seen frames.new) }
    {
        let mut image = frames.lift(frame);
        let read = read_page(&mut self.disk, page, &mut self.buffer, &mut image);
        frames.lay(frame, image);
        read
    }

    /// Makes the next frame the home of a page that was read into it.
    fn take_in<F: Frames>(&mut self, frames: &mut F, by: Caller, page: PageId, frame: u32)
        requires entries { HasRoomFor 1 self.old }
        requires tied { AreTied D.seen (F.seen frames.old) self.old.state }
        requires asked { MayTake D.seen (F.seen frames.old) self.old.state by page }
        requires next { IsNextFrame self.old.state frame }
        requires image { (content : Content) × IsInImage ((D.seen self.old.state.disk).told page) (F.seen frames.old) page frame content }
        ensures appends { AppendsEntry self.old.state self.new.state by (Kind.Load page frame) }
        ensures seen { F.seen frames.new ≡ shown (F.seen frames.old) (next_entry self.old.state by (Kind.Load page frame)) frame page
            (mark self.old.state.config.first self.old.state.history + 1) }
        ensures room { self.old.room ≤ self.new.room + 1 }
        ensures fixes { KeepsRoom (F.room frames.old) (F.room frames.new) }
        ensures caller { MayFix (F.seen frames.new) self.new.state by page }
        ensures tied { AreTied D.seen (F.seen frames.new) self.new.state }
        ensures behind { (o : Opened) → IfSome (F.seen frames.old).base (λ base. base ≡ o.base)
            → IsBehind D.seen o self.old.state (F.seen frames.old)
            → IsBehind D.seen o self.new.state (F.seen frames.new) }
    {
        let place = self.lists.mark() + 1;
        self.append(frames, by, Kind::Load { page, frame });
        frames.publish(frame, page, place);
    }

    /// Reads a page that is not resident into the frame that was had for it.
    fn load<F: Frames>(
        &mut self,
        frames: &mut F,
        by: Caller,
        page: PageId,
        frame: u32,
        now: u64,
    ) -> Result<(), FixErr>
        requires entries { HasRoomFor 1 self.old }
        requires rest { IsBetweenSteps D.seen by self.old.state (F.seen frames.old) }
        requires asked { MayTake D.seen (F.seen frames.old) self.old.state by page }
        requires next { IsNextFrame self.old.state frame }
        ensures keeps { (l : LogSeen) → Keeps D.seen 1 (moment self.old.state (F.seen frames.old) l) (moment self.new.state (F.seen frames.new) l) }
        ensures loaded { OnOk result (Loads D.seen self.old.state self.new.state (F.seen frames.old) (F.seen frames.new) by page frame) }
        ensures refused { IfErr result (λ e. IsLoadRefusal D.seen self.old.state self.new.state by page now e) }
        ensures unmoved { OnErr result ((F.seen frames.new).rows ≡ (F.seen frames.old).rows) }
        ensures more { IsOneMore self.old.state.history self.new.state.history }
        ensures room { OnOk result (self.old.room ≤ self.new.room + 1) }
        ensures fixes { OnOk result (KeepsRoom (F.room frames.old) (F.room frames.new)) }
    {
        match self.read_in(frames, page, frame) {
            Ok(()) => {
                self.take_in(frames, by, page, frame);
                Ok(())
            }
            Err(ReadErr::DiskFault { before, after }) => {
                let call = Call::Fix { page, now };
                self.refuse(frames, by, page, call, Cause::DiskFault { before, after });
                Err(FixErr::DiskFault { before, after })
            }
            Err(ReadErr::BadPage(bad)) => {
                let call = Call::Fix { page, now };
                self.refuse(frames, by, page, call, Cause::BadPage(bad));
                Err(FixErr::BadPage(bad))
            }
        }
    }

    /// AppendsEntry the refusal of a call that takes a frame for a page.
    pub(crate) fn refuse<F: Frames>(
        &mut self,
        frames: &mut F,
        by: Caller,
        page: PageId,
        call: Call,
        cause: Cause,
    )
        requires entries { HasRoomFor 1 self.old }
        requires rest { IsBetweenSteps D.seen by self.old.state (F.seen frames.old) }
        requires hands { EmptiesHand self.old.state call cause }
        requires asked { IsRefusable (F.seen frames.old) self.old.state by page call cause }
        ensures keeps { (l : LogSeen) → IsLoggedCause l.seen cause
            → Keeps D.seen 1 (moment self.old.state (F.seen frames.old) l) (moment self.new.state (F.seen frames.new) l) }
        ensures refused { Refuses self.old.state self.new.state (F.seen frames.old).rows (F.seen frames.new).rows by call cause }
    {
        self.append(frames, by, Kind::Refused { call, cause });
    }

    /// Grants a fix of a page that is in the frame.
    fn grant<F: Frames>(
        &mut self,
        frames: &mut F,
        by: Caller,
        page: PageId,
        frame: u32,
        now: u64,
    ) -> Granted
        requires entries { HasRoomFor 1 self.old }
        requires rest { IsAtRest D.seen self.old.state (F.seen frames.old) }
        requires caller { MayFix (F.seen frames.old) self.old.state by page }
        requires resident { home self.old.state.history page ≡ Some frame }
        requires below { frame < self.old.state.config.frames }
        requires fix { 0 < F.room frames.old frame }
        ensures keeps { (l : LogSeen) → Keeps D.seen 1 (moment self.old.state (F.seen frames.old) l) (moment self.new.state (F.seen frames.new) l) }
        ensures hit { IsHit self.old.state self.new.state (F.seen frames.old).rows (F.seen frames.new).rows by page now result }
        ensures frame { result.frame ≡ frame }
    {
        let place = self.lists.mark() + 1;
        let clock = frames.visit(frame).clock();
        self.append(
            frames,
            by,
            Kind::Fix {
                page,
                frame,
                clock,
                now,
            },
        );
        Granted {
            frame,
            clock,
            place,
        }
    }

    /// Fixes a page that is not resident: a frame is had for it, and it is read into that.
    fn fix_absent<F: Frames, R: RedoDisk>(
        &mut self,
        frames: &mut F,
        redo: &mut Redo<R>,
        by: Caller,
        page: PageId,
        now: u64,
    ) -> Result<Granted, FixErr>
        requires entries { HasRoomFor 4 self.old }
        requires ready { IsReady D.seen (moment_of F.seen R.seen self.old frames.old redo.old) by }
        requires asked { MayTake D.seen (F.seen frames.old) self.old.state by page }
        requires fixes { (f : ℕ) → f < length (F.seen frames.old).rows → 0 < F.room frames.old f }
        ensures keeps { Keeps D.seen 4
            (moment_of F.seen R.seen self.old frames.old redo.old)
            (moment_of F.seen R.seen self.new frames.new redo.new) }
        ensures answers { (held : ℕ) → held < MOST_FIXES → Fixes D.seen
            (moment_of F.seen R.seen self.old frames.old redo.old)
            (moment_of F.seen R.seen self.new frames.new redo.new) by held page now result }
    {
        let call = Call::Fix { page, now };
        let frame = match self.have_frame(frames, redo, by, page, call) {
            Ok(frame) => frame,
            Err(error) => return Err(fix_err(error)),
        };
        match self.load(frames, by, page, frame, now) {
            Ok(()) => Ok(self.grant(frames, by, page, frame, now)),
            Err(refusal) => Err(refusal),
        }
    }

    /// Fixes a page, where there is room for the entries.
    fn fix_reserved<F: Frames, R: RedoDisk>(
        &mut self,
        frames: &mut F,
        redo: &mut Redo<R>,
        by: Caller,
        held: u32,
        page: PageId,
        now: u64,
    ) -> Result<Granted, FixErr>
        requires entries { HasRoomFor 4 self.old }
        requires ready { IsReady D.seen (moment_of F.seen R.seen self.old frames.old redo.old) by }
        requires asked { IsAsked (F.seen frames.old) self.old.state held page }
        requires fixes { held < MOST_FIXES → (f : ℕ) → f < length (F.seen frames.old).rows → 0 < F.room frames.old f }
        ensures keeps { Keeps D.seen 4
            (moment_of F.seen R.seen self.old frames.old redo.old)
            (moment_of F.seen R.seen self.new frames.new redo.new) }
        ensures answers { Fixes D.seen
            (moment_of F.seen R.seen self.old frames.old redo.old)
            (moment_of F.seen R.seen self.new frames.new redo.new) by held page now result }
    {
        let pages = self.pages(page.space);
        if page.page >= pages {
            let call = Call::Fix { page, now };
            self.refuse(frames, by, page, call, Cause::NoSuchPage { pages });
            return Err(FixErr::NoSuchPage { pages });
        }
        if held >= MOST_FIXES {
            let call = Call::Fix { page, now };
            self.refuse(frames, by, page, call, Cause::HoldFull { held });
            return Err(FixErr::HoldFull { held });
        }
        match self.home_of(page) {
            Some(frame) => Ok(self.grant(frames, by, page, frame, now)),
            None => self.fix_absent(frames, redo, by, page, now),
        }
    }

    /// Fixes a page: a resident one where it is, any other one after reading it into a free frame or that of a victim, which is written first
    /// where it is dirty (buf0buf's `buf_page_get_gen`). The caller holds so many fixes, which may be no more than 64.
    ///
    /// AppendsEntry the entries `write`, `evict`, `load` and `fix`, each where it happens; or the refusal, behind the entries of a victim that had
    /// left. Memory is taken before anything changes; want of memory changes nothing.
    pub fn fix_at<F: Frames, R: RedoDisk>(
        &mut self,
        frames: &mut F,
        redo: &mut Redo<R>,
        by: Caller,
        held: u32,
        page: PageId,
        now: u64,
    ) -> Result<Granted, FixErr>
        requires places { self.old.state.config.first + length self.old.state.history + 4 < 2 ^ CLOCK_BITS }
        requires ready { IsReady D.seen (moment_of F.seen R.seen self.old frames.old redo.old) by }
        requires asked { IsAsked (F.seen frames.old) self.old.state held page }
        requires fixes { held < MOST_FIXES → (f : ℕ) → f < length (F.seen frames.old).rows → 0 < F.room frames.old f }
        ensures keeps { Keeps D.seen 4
            (moment_of F.seen R.seen self.old frames.old redo.old)
            (moment_of F.seen R.seen self.new frames.new redo.new) }
        ensures answers { Fixes D.seen
            (moment_of F.seen R.seen self.old frames.old redo.old)
            (moment_of F.seen R.seen self.new frames.new redo.new) by held page now result }
    {
        if self.reserve_fix().is_err() {
            return Err(FixErr::OutOfMemory);
        }
        self.fix_reserved(frames, redo, by, held, page, now)
    }
}

/// Why a fix is refused for which no frame was had.
fn fix_err(error: FrameErr) -> FixErr
    ensures { result ≡ fix_err_of error }
{
    match error {
        FrameErr::OutOfMemory => FixErr::OutOfMemory,
        FrameErr::AllFixed { seen } => FixErr::AllFixed { seen },
        FrameErr::RedoFault { before, after } => FixErr::RedoFault { before, after },
        FrameErr::DiskFault { before, after } => FixErr::DiskFault { before, after },
    }
}
