//! The clean: dirty pages are written, the oldest first, and the disk is synced.
ghost use Rattle.std.specs.Prelude.{List, ◌∷◌, ◌≡◌, ◌<◌, ◌≤◌, ◌+◌, ◌^◌, [], ℕ, None, Err, OnOk, IfErr, IfSome, IsSome, IsTrue, MatchResult, length, false, ◌⊎◌};
ghost use Rattle.page_ids.specs.Size.{page_bytes};
ghost use Rattle.page_ids.specs.declared.limits.TheConstants.{CLOCK_BITS};
ghost use Rattle.page_disk.specs.Disks.{IsSameDisk, IsOtherwiseSame};
ghost use Rattle.trail.specs.History.{home, change};
ghost use Rattle.trail.specs.Dirt.{dirty, log_end};
ghost use Rattle.trail.specs.declared.event.Dirty.{Dirty};
ghost use Rattle.frame_words.specs.Conditions.{IsLatched, MayLay};
ghost use Rattle.frame_words.specs.Rows.{laid_row, unlatched_row};
ghost use Rattle.frame_words.specs.Seen.{row_at, with_row};
ghost use Rattle.desk.specs.Changes.{IsWriteFault, IsForced, LeavesDesk};
ghost use Rattle.desk.specs.Claimed.{cause_of};
ghost use Rattle.desk.specs.Cleans.{MayWriteBack, IsFirstDirty, LeavesRoom, StaysPut, WroteFirst, UnwroteFirst, NeedsNoLog, Flushes, LeavesClean, Cleans, clean_err_of};
ghost use Rattle.desk.specs.Moments.{log_seen, moment_of, HasRoomFor, IsReady, Keeps};
ghost use Rattle.desk.specs.Tied.{TellsAll};
ghost use Rattle.desk.specs.Writing.{Covers, Writes};

use crate::calls::{Caller, CleanErr, Cleaned};
use crate::desk::{Desk, take_image};
use crate::flush::{WriteErr, cover_all, sync_pages, write_page};
use frame_words::Frames;
use page_disk::PageDisk;
use page_ids::{Image, OutOfMemory, PageId, Words};
use redo_mark::{Redo, RedoDisk};
use trail::{Call, Cause, Dirty, Kind};

impl<D: PageDisk> Desk<D> {
    /// Makes room for so many entries.
    pub(crate) fn room_for(&mut self, entries: usize) -> Result<(), OutOfMemory>
        ensures room { OnOk result (entries ≤ self.new.room) }
        ensures same { self.new.state ≡ self.old.state }
    {
        match self.lists.reserve(entries) {
            Ok(()) => Ok(()),
            Err(_) => Err(OutOfMemory),
        }
    }

    /// Writes an image through the buffer behind its log, and answers up to where the log was durable.
    fn write_out<R: RedoDisk>(
        &mut self,
        redo: &mut Redo<R>,
        page: PageId,
        image: &Image,
    ) -> Result<u64, WriteErr>
        requires resident { IsSome (home self.old.state.history page) }
        requires image { length image.now.bytes ≡ page_bytes self.old.state.config.page }
        requires known { image.now.lsn ≤ redo.old.seen.end }
        ensures answers { Writes D.seen self.old.state.disk self.new.state.disk
            (log_seen R.seen redo.old) (log_seen R.seen redo.new) page image.now result }
        ensures others { IsOtherwiseSame page (D.seen self.old.state.disk) (D.seen self.new.state.disk) }
        ensures kept { self.new ≡ record self.old { state = record self.old.state { disk = self.new.state.disk } } }
        ensures idle { image.now.lsn ≤ redo.old.seen.durable → redo.new ≡ redo.old }
        ensures log { Covers (log_seen R.seen redo.old) (log_seen R.seen redo.new) }
    {
        write_page(&mut self.disk, redo, page, image, &mut self.buffer)
    }

    /// Writes the page that was dirty first, under its latch and behind its log: the log is durable up to the page's LSN before the page is
    /// written (buf0flu's `buf_flush_write_block_low`). After a fault the page is as dirty as it was.
    fn write_back<F: Frames, R: RedoDisk>(
        &mut self,
        frames: &mut F,
        redo: &mut Redo<R>,
        by: Caller,
        oldest: Dirty,
    ) -> Result<(), WriteErr>
        requires entries { HasRoomFor 1 self.old }
        requires ready { IsReady D.seen (moment_of F.seen R.seen self.old frames.old redo.old) by }
        requires alone { TellsAll (F.seen frames.old) }
        requires first { IsFirstDirty self.old.state.history oldest }
        ensures keeps { Keeps D.seen 1
            (moment_of F.seen R.seen self.old frames.old redo.old)
            (moment_of F.seen R.seen self.new frames.new redo.new) }
        ensures answers { MatchResult result
            (λ _. WroteFirst
            (moment_of F.seen R.seen self.old frames.old redo.old)
            (moment_of F.seen R.seen self.new frames.new redo.new) by)
            (λ e. UnwroteFirst D.seen
            (moment_of F.seen R.seen self.old frames.old redo.old)
            (moment_of F.seen R.seen self.new frames.new redo.new) oldest e) }
        ensures left { StaysPut D.seen
            (moment_of F.seen R.seen self.old frames.old redo.old)
            (moment_of F.seen R.seen self.new frames.new redo.new) by }
        ensures room { LeavesRoom self.old self.new }
        ensures idle { oldest.newest ≤ redo.old.seen.durable → redo.new ≡ redo.old }
    {
        let Dirty { page, newest, .. } = oldest;
        let frame = self.frame_of(page);
        let image = take_image(frames, frame);
        match self.write_out(redo, page, &image) {
            Ok(upto) => {
                self.append(
                    frames,
                    by,
                    Kind::Write {
                        page,
                        lsn: newest,
                        upto,
                    },
                );
                give_image(frames, frame, image);
                Ok(())
            }
            Err(error) => {
                give_image(frames, frame, image);
                Err(error)
            }
        }
    }

    /// The page that was dirty first.
    fn first_dirty(&self) -> Option<Dirty>
        ensures some { IfSome result (λ d. (rest : List Dirty) × (dirty self.now.state.history ≡ d ∷ rest)) }
        ensures resident { IfSome result (λ d. IsSome (home self.now.state.history d.page)) }
        ensures logged { IfSome result (λ d. d.newest ≤ log_end self.now.state.history) }
        ensures none { result ≡ None → dirty self.now.state.history ≡ [] }
    {
        self.lists.oldest()
    }

    /// Writes dirty pages, the oldest first, until so many are written or none is dirty, and answers how many.
    fn write_back_all<F: Frames, R: RedoDisk>(
        &mut self,
        frames: &mut F,
        redo: &mut Redo<R>,
        by: Caller,
        most: u32,
    ) -> Result<u32, WriteErr>
        requires entries { MayWriteBack most self.old }
        requires ready { IsReady D.seen (moment_of F.seen R.seen self.old frames.old redo.old) by }
        requires alone { TellsAll (F.seen frames.old) }
        ensures keeps { Keeps D.seen (length (dirty self.old.state.history))
            (moment_of F.seen R.seen self.old frames.old redo.old)
            (moment_of F.seen R.seen self.new frames.new redo.new) }
        ensures answers { Flushes D.seen
            (moment_of F.seen R.seen self.old frames.old redo.old)
            (moment_of F.seen R.seen self.new frames.new redo.new) by most false result }
        ensures left { StaysPut D.seen
            (moment_of F.seen R.seen self.old frames.old redo.old)
            (moment_of F.seen R.seen self.new frames.new redo.new) by }
        ensures room { LeavesRoom self.old self.new }
        ensures idle { NeedsNoLog (moment_of F.seen R.seen self.old frames.old redo.old) most false → redo.new ≡ redo.old }
    {
        for written in 0..most {
            let Some(oldest) = self.first_dirty() else {
                return Ok(written);
            };
            match self.write_back(frames, redo, by, oldest) {
                Ok(()) => (),
                Err(error) => return Err(error),
            }
        }
        Ok(most)
    }

    /// Syncs the disk.
    fn sync(&mut self) -> Result<(), WriteErr>
        ensures history { self.new.state.history ≡ self.old.state.history }
        ensures room { self.new.room ≡ self.old.room }
        ensures fault { (first last : ℕ) → IfErr result (λ e. IsWriteFault (D.seen self.old.state.disk).faults
            (D.seen self.new.state.disk).faults first last e) }
        ensures unlogged { IfErr result (λ e. IsForced self.old.state.disk self.new.state.disk ⊥ e) }
        ensures desk { LeavesDesk D.seen self.old.state self.new.state }
        ensures same { IsSameDisk (D.seen self.old.state.disk) (D.seen self.new.state.disk) }
        ensures synced { OnOk result (IsTrue (D.seen self.new.state.disk).synced) }
    {
        sync_pages(&mut self.disk)
    }

    /// Writes dirty pages, the oldest first, until so many are written or none is dirty, and answers how many. With `sync` the whole log is
    /// then made durable, and the disk synced.
    fn flush<F: Frames, R: RedoDisk>(
        &mut self,
        frames: &mut F,
        redo: &mut Redo<R>,
        by: Caller,
        most: u32,
        sync: bool,
    ) -> Result<u32, WriteErr>
        requires entries { MayWriteBack most self.old }
        requires ready { IsReady D.seen (moment_of F.seen R.seen self.old frames.old redo.old) by }
        requires alone { TellsAll (F.seen frames.old) }
        ensures keeps { Keeps D.seen (length (dirty self.old.state.history))
            (moment_of F.seen R.seen self.old frames.old redo.old)
            (moment_of F.seen R.seen self.new frames.new redo.new) }
        ensures answers { Flushes D.seen
            (moment_of F.seen R.seen self.old frames.old redo.old)
            (moment_of F.seen R.seen self.new frames.new redo.new) by most sync result }
        ensures left { StaysPut D.seen
            (moment_of F.seen R.seen self.old frames.old redo.old)
            (moment_of F.seen R.seen self.new frames.new redo.new) by }
        ensures room { LeavesRoom self.old self.new }
        ensures idle { NeedsNoLog (moment_of F.seen R.seen self.old frames.old redo.old) most sync → redo.new ≡ redo.old }
    {
        let written = match self.write_back_all(frames, redo, by, most) {
            Ok(written) => written,
            Err(error) => return Err(error),
        };
        if !sync {
            return Ok(written);
        }
        match cover_all(redo) {
            Ok(()) => (),
            Err(error) => return Err(error),
        }
        match self.sync() {
            Ok(()) => Ok(written),
            Err(error) => Err(error),
        }
    }

    /// How many pages are dirty.
    fn dirty_pages(&self) -> usize
        ensures count { result ≡ length (dirty self.now.state.history) }
        ensures few { result ≤ self.now.state.config.frames }
    {
        self.lists.dirty_pages()
    }

    /// Writes dirty pages, where there is room for the entries.
    fn clean_reserved<F: Frames, R: RedoDisk>(
        &mut self,
        frames: &mut F,
        redo: &mut Redo<R>,
        by: Caller,
        bound: u32,
        sync: bool,
    ) -> Result<Cleaned, CleanErr>
        requires entries { MayWriteBack bound self.old }
        requires ready { IsReady D.seen (moment_of F.seen R.seen self.old frames.old redo.old) by }
        requires alone { TellsAll (F.seen frames.old) }
        ensures keeps { Keeps D.seen (length (dirty self.old.state.history) + 1)
            (moment_of F.seen R.seen self.old frames.old redo.old)
            (moment_of F.seen R.seen self.new frames.new redo.new) }
        ensures answers { Cleans D.seen
            (moment_of F.seen R.seen self.old frames.old redo.old)
            (moment_of F.seen R.seen self.new frames.new redo.new) by bound sync result }
        ensures left { LeavesClean D.seen
            (moment_of F.seen R.seen self.old frames.old redo.old)
            (moment_of F.seen R.seen self.new frames.new redo.new) bound sync result }
        ensures idle { (result ≡ Err CleanErr.OutOfMemory) ⊎ NeedsNoLog (moment_of F.seen R.seen self.old frames.old redo.old) bound sync
            → redo.new ≡ redo.old }
    {
        let alloc = self.lists.allocator();
        match self.flush(frames, redo, by, bound, sync) {
            Ok(written) => {
                let skipped = Words::of(Vec::new(alloc));
                self.append(frames, by, Kind::Clean { written, skipped });
                let skipped = Words::of(Vec::new(alloc));
                Ok(Cleaned { written, skipped })
            }
            Err(error) => {
                let (cause, refusal) = clean_causes_of(error);
                let call = Call::Clean { bound };
                self.append(frames, by, Kind::Refused { call, cause });
                Err(refusal)
            }
        }
    }

    /// Writes dirty pages, the oldest first, at most `bound` (buf0flu's flush batch); with `sync` the whole log is then made durable, and the
    /// disk synced (as at a shutdown).
    ///
    /// Each page is written behind its log, under its latch. Appends an entry `write` for each page and then the entry `clean`, or its refusal,
    /// which keeps the writes. All memory is taken before anything changes; want of memory changes nothing. The fixes of all frames have to be
    /// told, so that no latch is found set.
    pub fn clean_at<F: Frames, R: RedoDisk>(
        &mut self,
        frames: &mut F,
        redo: &mut Redo<R>,
        by: Caller,
        bound: u32,
        sync: bool,
    ) -> Result<Cleaned, CleanErr>
        requires places { self.old.state.config.first + length self.old.state.history
            + length (dirty self.old.state.history) + 1 < 2 ^ CLOCK_BITS }
        requires ready { IsReady D.seen (moment_of F.seen R.seen self.old frames.old redo.old) by }
        requires alone { TellsAll (F.seen frames.old) }
        ensures keeps { Keeps D.seen (length (dirty self.old.state.history) + 1)
            (moment_of F.seen R.seen self.old frames.old redo.old)
            (moment_of F.seen R.seen self.new frames.new redo.new) }
        ensures answers { Cleans D.seen
            (moment_of F.seen R.seen self.old frames.old redo.old)
            (moment_of F.seen R.seen self.new frames.new redo.new) by bound sync result }
        ensures left { LeavesClean D.seen
            (moment_of F.seen R.seen self.old frames.old redo.old)
            (moment_of F.seen R.seen self.new frames.new redo.new) bound sync result }
        ensures few { (length (dirty self.old.state.history) ≤ self.old.state.config.frames)
            × (length (dirty self.old.state.history) ≤ length self.old.state.history) }
        ensures idle { (result ≡ Err CleanErr.OutOfMemory) ⊎ NeedsNoLog (moment_of F.seen R.seen self.old frames.old redo.old) bound sync
            → redo.new ≡ redo.old }
    {
        let most = self.dirty_pages().min(bound as usize);
        if self.room_for(most + 1).is_err() {
            return Err(CleanErr::OutOfMemory);
        }
        self.clean_reserved(frames, redo, by, bound, sync)
    }
}

/// Puts the image back into a frame that is latched, and gives the latch back.
fn give_image<F: Frames>(frames: &mut F, frame: u32, image: Image)
    requires latch { IsLatched (F.seen frames.old) frame }
    requires may { MayLay (F.seen frames.old) frame image }
    requires clock { IfSome (F.seen frames.old).history (λ h. (row_at (F.seen frames.old) frame).clock ≡ change h.entries frame) }
    ensures seen { F.seen frames.new ≡ with_row (F.seen frames.old) frame
        (unlatched_row (laid_row (row_at (F.seen frames.old) frame) image)) }
{
    frames.lay(frame, image);
    frames.unlatch(frame);
}

/// What is told of a clean that a device stopped, in the history and in the answer.
fn clean_causes_of(error: WriteErr) -> (Cause, CleanErr)
    ensures { (result.0 ≡ cause_of error) × (result.1 ≡ clean_err_of error) }
{
    match error {
        WriteErr::RedoFault { before, after } => (
            Cause::RedoFault { before, after },
            CleanErr::RedoFault { before, after },
        ),
        WriteErr::DiskFault { before, after } => (
            Cause::DiskFault { before, after },
            CleanErr::DiskFault { before, after },
        ),
    }
}
