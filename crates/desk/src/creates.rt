//! The create: a page is made new and blank in a frame that was had for it, logged first, and a fix of it is granted.
ghost use Rattle.std.specs.Prelude.{◌≡◌, ◌<◌, ◌≤◌, ◌+◌, ◌^◌, ℕ, Some, None, OnOk, IfOk, length};
ghost use Rattle.page_ids.specs.Size.{page_bytes};
ghost use Rattle.page_ids.specs.declared.limits.TheConstants.{CLOCK_BITS, MOST_FIXES};
ghost use Rattle.redo_mark.specs.Records.{head_of, record_of};
ghost use Rattle.trail.specs.History.{home};
ghost use Rattle.trail.specs.Trails.{mark};
ghost use Rattle.frame_words.specs.Rows.{laid_row};
ghost use Rattle.frame_words.specs.Seen.{KeepsRoom, row_at, with_row};
ghost use Rattle.desk.specs.Answers.{IsAsked, MayTake, IsNextFrame, IsCreateSpan, Creates};
ghost use Rattle.desk.specs.Creating.{IsMade, create_err_of, blank_at};
ghost use Rattle.instance_lists.specs.Ledger.{IsVacant};
ghost use Rattle.desk.specs.Logged.{create_change};
ghost use Rattle.desk.specs.Making.{shown};
ghost use Rattle.desk.specs.Moments.{LogSeen, moment, moment_of, HasRoomFor, IsBetweenSteps, IsReady, Keeps};
ghost use Rattle.desk.specs.Steps.{AppendsEntry, next_entry};
ghost use Rattle.desk.specs.Tied.{AreTied};
ghost use Rattle.redo_mark.specs.Logs.{Holds};

use crate::calls::{Caller, CreateErr, FrameErr, Granted};
use crate::desk::Desk;
use frame_words::Frames;
use page_disk::PageDisk;
use page_ids::{Bytes, MOST_FIXES, OutOfMemory, PageId};
use redo_mark::{Change, ChangeKind, Draft, LogSpent, Redo, RedoDisk, Span};
use std::alloc::{AllocError, Global};
use trail::{Call, Cause, Kind};

impl<D: PageDisk> Desk<D> {
    /// Lays a blank page with this LSN into a frame that is no page's home.
    fn lay_blank<F: Frames>(&self, frames: &mut F, frame: u32, lsn: u64)
        requires below { frame < self.now.state.config.frames }
        requires vacant { IsVacant self.now.state.history frame }
        requires tied { AreTied D.seen (F.seen frames.old) self.now.state }
        ensures seen { F.seen frames.new ≡ with_row (F.seen frames.old) frame
            (laid_row (row_at (F.seen frames.old) frame) (blank_at (page_bytes self.now.state.config.page) lsn)) }
        ensures image { (row_at (F.seen frames.new) frame).image ≡ Some (Some (blank_at (page_bytes self.now.state.config.page) lsn)) }
        ensures tied { AreTied D.seen (F.seen frames.new) self.now.state }
        ensures fixes { KeepsRoom (F.room frames.old) (F.room frames.new) }
    {
        let mut image = frames.lift(frame);
        image.clear(lsn);
        frames.lay(frame, image);
    }

    /// AppendsEntry the entry of a blank page that lies in the next frame, and publishes it there at the entry's place.
    fn show_made<F: Frames>(
        &mut self,
        frames: &mut F,
        by: Caller,
        page: PageId,
        frame: u32,
        now: u64,
        span: Span,
    ) -> u64
        requires entries { HasRoomFor 1 self.old }
        requires tied { AreTied D.seen (F.seen frames.old) self.old.state }
        requires asked { MayTake D.seen (F.seen frames.old) self.old.state by page }
        requires next { IsNextFrame self.old.state frame }
        requires span { IsCreateSpan self.old.state span }
        requires image { (row_at (F.seen frames.old) frame).image ≡ Some (Some (blank_at (page_bytes self.old.state.config.page) span.end)) }
        ensures place { result ≡ mark self.old.state.config.first self.old.state.history + 1 }
        ensures appends { AppendsEntry self.old.state self.new.state by (Kind.Create page frame span.start span.end now) }
        ensures seen { F.seen frames.new ≡ shown (F.seen frames.old)
            (next_entry self.old.state by (Kind.Create page frame span.start span.end now)) frame page result }
        ensures room { self.old.room ≤ self.new.room + 1 }
        ensures fixes { KeepsRoom (F.room frames.old) (F.room frames.new) }
    {
        let place = self.next_place();
        self.append(
            frames,
            by,
            Kind::Create {
                page,
                frame,
                start: span.start,
                end: span.end,
                now,
            },
        );
        frames.publish(frame, page, place);
        place
    }

    /// Makes a page in the next frame: blank, published there, and fixed.
    pub(crate) fn make<F: Frames>(
        &mut self,
        frames: &mut F,
        by: Caller,
        page: PageId,
        frame: u32,
        now: u64,
        span: Span,
    ) -> Granted
        requires entries { HasRoomFor 1 self.old }
        requires rest { IsBetweenSteps D.seen by self.old.state (F.seen frames.old) }
        requires asked { MayTake D.seen (F.seen frames.old) self.old.state by page }
        requires next { IsNextFrame self.old.state frame }
        requires span { IsCreateSpan self.old.state span }
        requires fix { 0 < F.room frames.old frame }
        ensures keeps { (l : LogSeen) → Holds l.seen (record_of (create_change page) span.start) span.start → span.end ≤ l.seen.end
            → Keeps D.seen 1 (moment self.old.state (F.seen frames.old) l) (moment self.new.state (F.seen frames.new) l) }
        ensures made { IsMade self.old.state self.new.state (F.seen frames.old).rows (F.seen frames.new).rows by page now span.start result }
        ensures frame { result.frame ≡ frame }
    {
        self.lay_blank(frames, frame, span.end);
        let place = self.show_made(frames, by, page, frame, now, span);
        let _ = frames.visit(frame);
        Granted {
            frame,
            clock: place,
            place,
        }
    }

    /// Makes room for the entries of a create.
    fn reserve_create(&mut self) -> Result<(), AllocError>
        ensures room { OnOk result (3 ≤ self.new.room) }
        ensures same { self.new.state ≡ self.old.state }
    {
        self.lists.reserve(3)
    }

    /// Makes a page that is not resident: a frame is had for it, its record is appended to the log, and the page is made in the frame.
    fn create_absent<F: Frames, R: RedoDisk>(
        &mut self,
        frames: &mut F,
        redo: &mut Redo<R>,
        by: Caller,
        page: PageId,
        now: u64,
    ) -> Result<Granted, CreateErr>
        requires entries { HasRoomFor 3 self.old }
        requires ready { IsReady D.seen (moment_of F.seen R.seen self.old frames.old redo.old) by }
        requires asked { MayTake D.seen (F.seen frames.old) self.old.state by page }
        requires fixes { (f : ℕ) → f < length (F.seen frames.old).rows → 0 < F.room frames.old f }
        ensures keeps { Keeps D.seen 3
            (moment_of F.seen R.seen self.old frames.old redo.old)
            (moment_of F.seen R.seen self.new frames.new redo.new) }
        ensures answers { (held : ℕ) → held < MOST_FIXES → Creates D.seen
            (moment_of F.seen R.seen self.old frames.old redo.old)
            (moment_of F.seen R.seen self.new frames.new redo.new) by held page now result }
    {
        let alloc = self.lists.allocator();
        let Ok(draft) = create_draft(alloc, page) else {
            return Err(CreateErr::OutOfMemory);
        };
        let call = Call::Create { page, now };
        let frame = match self.have_frame(frames, redo, by, page, call) {
            Ok(frame) => frame,
            Err(error) => return Err(create_err(error)),
        };
        match redo.append(draft) {
            Ok(span) => Ok(self.make(frames, by, page, frame, now, span)),
            Err(LogSpent { end }) => {
                let call = Call::Create { page, now };
                self.refuse(frames, by, page, call, Cause::LogSpent { end });
                Err(CreateErr::LogSpent { end })
            }
        }
    }

    /// Makes a page, where there is room for the entries.
    fn create_reserved<F: Frames, R: RedoDisk>(
        &mut self,
        frames: &mut F,
        redo: &mut Redo<R>,
        by: Caller,
        held: u32,
        page: PageId,
        now: u64,
    ) -> Result<Granted, CreateErr>
        requires entries { HasRoomFor 3 self.old }
        requires ready { IsReady D.seen (moment_of F.seen R.seen self.old frames.old redo.old) by }
        requires asked { IsAsked (F.seen frames.old) self.old.state held page }
        requires fixes { held < MOST_FIXES → (f : ℕ) → f < length (F.seen frames.old).rows → 0 < F.room frames.old f }
        ensures keeps { Keeps D.seen 3
            (moment_of F.seen R.seen self.old frames.old redo.old)
            (moment_of F.seen R.seen self.new frames.new redo.new) }
        ensures answers { Creates D.seen
            (moment_of F.seen R.seen self.old frames.old redo.old)
            (moment_of F.seen R.seen self.new frames.new redo.new) by held page now result }
    {
        let pages = self.pages(page.space);
        if page.page >= pages {
            let call = Call::Create { page, now };
            self.refuse(frames, by, page, call, Cause::NoSuchPage { pages });
            return Err(CreateErr::NoSuchPage { pages });
        }
        if held >= MOST_FIXES {
            let call = Call::Create { page, now };
            self.refuse(frames, by, page, call, Cause::HoldFull { held });
            return Err(CreateErr::HoldFull { held });
        }
        match self.home_of(page) {
            Some(frame) => {
                let call = Call::Create { page, now };
                self.refuse(frames, by, page, call, Cause::Resident { frame });
                Err(CreateErr::Resident { frame })
            }
            None => self.create_absent(frames, redo, by, page, now),
        }
    }

    /// Makes a page of zeros in a free frame or in that of a victim, which is written first where it is dirty, logs that, and fixes the page
    /// (buf0buf's `buf_page_create`). Nothing is read from the disk. A resident page is refused. The caller holds so many fixes, which may be
    /// no more than 64.
    ///
    /// AppendsEntry the entries `write`, `evict` and `create`, each where it happens; or the refusal, behind the entries of a victim that had
    /// left. Memory is taken before anything changes; want of memory changes nothing.
    pub fn create_at<F: Frames, R: RedoDisk>(
        &mut self,
        frames: &mut F,
        redo: &mut Redo<R>,
        by: Caller,
        held: u32,
        page: PageId,
        now: u64,
    ) -> Result<Granted, CreateErr>
        requires places { self.old.state.config.first + length self.old.state.history + 3 < 2 ^ CLOCK_BITS }
        requires ready { IsReady D.seen (moment_of F.seen R.seen self.old frames.old redo.old) by }
        requires asked { IsAsked (F.seen frames.old) self.old.state held page }
        requires fixes { held < MOST_FIXES → (f : ℕ) → f < length (F.seen frames.old).rows → 0 < F.room frames.old f }
        ensures keeps { Keeps D.seen 3
            (moment_of F.seen R.seen self.old frames.old redo.old)
            (moment_of F.seen R.seen self.new frames.new redo.new) }
        ensures answers { Creates D.seen
            (moment_of F.seen R.seen self.old frames.old redo.old)
            (moment_of F.seen R.seen self.new frames.new redo.new) by held page now result }
    {
        if self.reserve_create().is_err() {
            return Err(CreateErr::OutOfMemory);
        }
        self.create_reserved(frames, redo, by, held, page, now)
    }
}

/// The draft of a create's record.
fn create_draft(alloc: Global, page: PageId) -> Result<Draft, OutOfMemory>
    ensures { IfOk result (λ d. d ≡ head_of (create_change page)) }
{
    let change = Change {
        page,
        kind: ChangeKind::Create,
        at: 0,
        bytes: Bytes::of(Vec::new(alloc)),
    };
    Draft::of(alloc, &change)
}

/// Why a create is refused for which no frame was had.
fn create_err(error: FrameErr) -> CreateErr
    ensures { result ≡ create_err_of error }
{
    match error {
        FrameErr::OutOfMemory => CreateErr::OutOfMemory,
        FrameErr::AllFixed { seen } => CreateErr::AllFixed { seen },
        FrameErr::RedoFault { before, after } => CreateErr::RedoFault { before, after },
        FrameErr::DiskFault { before, after } => CreateErr::DiskFault { before, after },
    }
}
