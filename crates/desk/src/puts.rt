//! The put: bytes of a resident page are changed, and the change is logged first.
ghost use Rattle.std.specs.Prelude.{◌≡◌, ◌<◌, ◌≤◌, ◌+◌, ◌^◌, OnOk, IfSome, length};
ghost use Rattle.page_ids.specs.declared.limits.TheConstants.{CLOCK_BITS, RECORD_BYTES};
ghost use Rattle.trail.specs.Trails.{mark};
ghost use Rattle.trail.specs.History.{change};
ghost use Rattle.trail.specs.Dirt.{log_end};
ghost use Rattle.frame_words.specs.Conditions.{IsLatched, MayLay};
ghost use Rattle.frame_words.specs.Rows.{laid_row, stamped_row, unlatched_row};
ghost use Rattle.frame_words.specs.Seen.{row_at, with_row};
ghost use Rattle.desk.specs.Answers.{IsPutAsked, Puts};
ghost use Rattle.desk.specs.Base.{Opened};
ghost use Rattle.desk.specs.Behind.{IsBehind};
ghost use Rattle.desk.specs.Changes.{IsPutBy};
ghost use Rattle.desk.specs.Logged.{put_change};
ghost use Rattle.desk.specs.Moments.{LogSeen, moment, moment_of, HasRoomFor, IsAtRest, IsReady, Keeps};
ghost use Rattle.desk.specs.Tied.{TellsAll, HasTurn};
ghost use Rattle.redo_mark.specs.Logs.{Holds};
ghost use Rattle.redo_mark.specs.Records.{record_of};

use crate::calls::{Caller, PutDone, PutErr};
use crate::desk::{Desk, take_image};
use crate::parts::drafted;
use frame_words::Frames;
use page_disk::PageDisk;
use page_ids::{Bytes, Image, OutOfMemory, PageId};
use redo_mark::{LogSpent, Redo, RedoDisk, Span};
use trail::{Call, Cause, Kind};

impl<D: PageDisk> Desk<D> {
    /// The place of the next entry.
    pub(crate) fn next_place(&self) -> u64
        requires places { self.now.state.config.first + length self.now.state.history + 1 < 2 ^ CLOCK_BITS }
        ensures place { result ≡ mark self.now.state.config.first self.now.state.history + 1 }
        ensures early { result < 2 ^ CLOCK_BITS }
    {
        self.lists.mark() + 1
    }

    /// Makes room for the entry of a put.
    fn room_for_put(&mut self) -> Result<(), OutOfMemory>
        ensures room { OnOk result (0 < self.new.room) }
        ensures same { self.new.state ≡ self.old.state }
    {
        match self.lists.reserve_put() {
            Ok(()) => Ok(()),
            Err(_) => Err(OutOfMemory),
        }
    }

    /// Changes bytes of a resident page: the image, its LSN and the frame's clock, under the frame's latch; appends the entry.
    fn change<F: Frames>(
        &mut self,
        frames: &mut F,
        by: Caller,
        page: PageId,
        at: u32,
        bytes: Bytes,
        span: Span,
    ) -> PutDone
        requires entries { HasRoomFor 1 self.old }
        requires rest { IsAtRest D.seen self.old.state (F.seen frames.old) }
        requires alone { TellsAll (F.seen frames.old) }
        requires turn { HasTurn (F.seen frames.old) by }
        requires asked { IsPutAsked (F.seen frames.old) self.old.state page at (length bytes) }
        requires span { (log_end self.old.state.history ≤ span.start) × (span.end ≡ span.start + RECORD_BYTES + length bytes) }
        ensures keeps { (l : LogSeen) → Holds l.seen (record_of (put_change page at bytes) span.start) span.start → span.end ≤ l.seen.end
            → Keeps D.seen 1 (moment self.old.state (F.seen frames.old) l) (moment self.new.state (F.seen frames.new) l) }
        ensures done { IsPutBy self.old.state self.new.state (F.seen frames.old).rows (F.seen frames.new).rows by page at bytes result }
        ensures lsn { result.lsn ≡ span.end }
        ensures behind { (o : Opened) → IsBehind D.seen o self.old.state (F.seen frames.old)
            → IsBehind D.seen o self.new.state (F.seen frames.new) }
    {
        let place = self.next_place();
        let frame = self.frame_of(page);
        let mut image = take_image(frames, frame);
        image.patch(at, bytes.as_slice(), span.end);
        self.append(
            frames,
            by,
            Kind::Put {
                page,
                at,
                bytes,
                start: span.start,
                end: span.end,
            },
        );
        give_changed(frames, frame, image, place);
        PutDone {
            lsn: span.end,
            place,
        }
    }

    /// Changes bytes of a resident page's body, and logs the change first (InnoDB's `mlog_write_string`).
    ///
    /// Appends the entry `put`, or the refusal where the log has no LSN left for the record. All memory is taken before anything changes.
    /// The fixes of all frames have to be told, so that nobody else has the page's latch.
    pub fn put_at<F: Frames, R: RedoDisk>(
        &mut self,
        frames: &mut F,
        redo: &mut Redo<R>,
        by: Caller,
        page: PageId,
        at: u32,
        bytes: &[u8],
    ) -> Result<PutDone, PutErr>
        requires places { self.old.state.config.first + length self.old.state.history + 1 < 2 ^ CLOCK_BITS }
        requires ready { IsReady D.seen (moment_of F.seen R.seen self.old frames.old redo.old) by }
        requires alone { TellsAll (F.seen frames.old) }
        requires asked { IsPutAsked (F.seen frames.old) self.old.state page at (length bytes.now) }
        ensures keeps { Keeps D.seen 1
            (moment_of F.seen R.seen self.old frames.old redo.old)
            (moment_of F.seen R.seen self.new frames.new redo.new) }
        ensures answers { Puts D.seen
            (moment_of F.seen R.seen self.old frames.old redo.old)
            (moment_of F.seen R.seen self.new frames.new redo.new) by page at bytes.now result }
    {
        let alloc = self.lists.allocator();
        if self.room_for_put().is_err() {
            return Err(PutErr::OutOfMemory);
        }
        let Ok((draft, bytes)) = drafted(alloc, page, at, bytes) else {
            return Err(PutErr::OutOfMemory);
        };
        match redo.append(draft) {
            Ok(span) => Ok(self.change(frames, by, page, at, bytes, span)),
            Err(LogSpent { end }) => {
                let call = Call::Put { page, at, bytes };
                let cause = Cause::LogSpent { end };
                self.append(frames, by, Kind::Refused { call, cause });
                Err(PutErr::LogSpent { end })
            }
        }
    }
}

/// Puts a changed image back into a frame that is latched, with the place of the change as its clock, and gives the latch back.
fn give_changed<F: Frames>(frames: &mut F, frame: u32, image: Image, place: u64)
    requires latch { IsLatched (F.seen frames.old) frame }
    requires may { MayLay (F.seen frames.old) frame image }
    requires early { place < 2 ^ CLOCK_BITS }
    requires clock { IfSome (F.seen frames.old).history (λ h. place ≡ change h.entries frame) }
    ensures seen { F.seen frames.new ≡ with_row (F.seen frames.old) frame
        (unlatched_row (stamped_row (laid_row (row_at (F.seen frames.old) frame) image) place)) }
{
    frames.lay(frame, image);
    frames.stamp(frame, place);
    frames.unlatch(frame);
}
