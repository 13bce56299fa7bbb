//! How a frame is had for a page that is not resident: a free one, or that of a victim (buf0lru's `buf_LRU_get_free_block`).
ghost use Rattle.std.specs.Prelude.{List, ◌≡◌, ◌<◌, ◌≤◌, ◌+◌, ◌^◌, ◌⊎◌, ◌++◌, [], ◌∷◌, true, false, Some, None, Option, OnOk, IfOk, IfErr, IfSome, IfNone, MatchResult, Contains, IsPermutation, length, filter, slice_set, ◌⊎◌};
ghost use Rattle.std.specs.List.Sorted.{IsNonDecreasingBy};
ghost use Rattle.page_ids.specs.FrameWord.{fixes_of};
ghost use Rattle.page_ids.specs.declared.ids.PageId.{PageId};
ghost use Rattle.page_ids.specs.declared.limits.TheConstants.{CLOCK_BITS};
ghost use Rattle.page_disk.specs.Disks.{IsOtherwiseSame};
ghost use Rattle.trail.specs.History.{home};
ghost use Rattle.trail.specs.Dirt.{dirty, dirt_of, is_dirty};
ghost use Rattle.trail.specs.Victim.{walk};
ghost use Rattle.trail.specs.declared.event.Dirty.{Dirty};
ghost use Rattle.trail.specs.declared.event.Entry.{Entry};
ghost use Rattle.frame_words.specs.Appends.{appended};
ghost use Rattle.frame_words.specs.Conditions.{IsUntouched, IsSteady, AreFound};
ghost use Rattle.frame_words.specs.Rows.{published_row};
ghost use Rattle.frame_words.specs.Seen.{FramesSeen, row_at, Finds, KeepsRoom};
ghost use Rattle.desk.specs.Answers.{IsRefusable, MayTake, IsNextFrame, HasFrameFor, IsOccupied, Unhad};
ghost use Rattle.desk.specs.Base.{Opened};
ghost use Rattle.desk.specs.Behind.{IsBehind};
ghost use Rattle.instance_lists.specs.Walk.{test_of, part_of};
ghost use Rattle.desk.specs.Claimed.{HasLooked, IsTaken, ArePassedBy, StopsAt, AreTiedBut, KeepsLog, WroteClaimed, UnwroteClaimed, CleanedClaimed, UncleanedClaimed, LeavesClaimed, cause_of, refusal_of};
ghost use Rattle.desk.specs.Moments.{log_seen, moment_of, HasRoomFor, IsReady, Follows, Keeps, Proceeds, LogSeen, moment, IsAtRest};
ghost use Rattle.desk.specs.Steps.{AppendsEntry, next_entry};
ghost use Rattle.desk.specs.Tied.{AreTied, HasTurn};
ghost use Rattle.desk.specs.Victims.{IsAhead, AsksFor};
ghost use Rattle.desk.specs.Writing.{Covers};
ghost use Rattle.instance_lists.specs.Walk.{AreOrderly};

use crate::calls::{Caller, FrameErr};
use crate::desk::Desk;
use crate::flush::{WriteErr, write_page};
use frame_words::Frames;
use page_disk::PageDisk;
use page_ids::{OutOfMemory, PageId, Word, Words};
use redo_mark::{Redo, RedoDisk};
use trail::{Call, Cause, Kind};

/// A page whose frame was claimed, and the modify clock that the frame has.
#[derive(Clone, Copy, Debug)]
pub(crate) struct Victim {
    page: PageId,
    frame: u32,
    clock: u64,
}

impl<D: PageDisk> Desk<D> {
    /// Claims the frame, where its page is dirty or clean as asked. A word with fixes is kept with its frame.
    fn try_frame<F: Frames>(
        &self,
        frames: &mut F,
        passed: &mut Vec<(u32, Word)>,
        frame: u32,
        soiled: bool,
    ) -> Result<Option<Victim>, OutOfMemory>
        requires tied { AreTied D.seen (F.seen frames.old) self.now.state }
        requires housed { (p : PageId) × (home self.now.state.history p ≡ Some frame) }
        requires below { frame < self.now.state.config.frames }
        requires alone { (p q : PageId) → home self.now.state.history p ≡ Some frame → home self.now.state.history q ≡ Some frame → q ≡ p }
        ensures looked { MatchResult result (λ found. IfNone found (HasLooked (F.seen frames.old) (F.seen frames.new)))
            (λ _. HasLooked (F.seen frames.old) (F.seen frames.new)) }
        ensures passed { IfOk result (λ found. IfNone found ((p : PageId) (pages : List PageId) → home self.now.state.history p ≡ Some frame
            → ArePassedBy self.now.state.history (F.seen frames.old).rows (F.seen frames.old).found pages passed.old.items
            → ArePassedBy self.now.state.history (F.seen frames.old).rows (F.seen frames.new).found
            (pages ++ filter (test_of self.now.state.history soiled) (p ∷ [])) passed.new.items)) }
        ensures taken { IfOk result (λ found. IfSome found (λ v. (v.frame ≡ frame) × (test_of self.now.state.history soiled v.page ≡ true)
            × IsTaken (F.seen frames.old) (F.seen frames.new) self.now.state.history v.page v.frame v.clock × (passed.new.items ≡ passed.old.items))) }
        ensures fixes { KeepsRoom (F.room frames.old) (F.room frames.new) }
    {
        let page = self.lists.page_in(frame);
        if self.lists.is_dirty_in(frame) != soiled {
            return Ok(None);
        }
        match claim_at(frames, frame) {
            Ok(clock) => Ok(Some(Victim { page, frame, clock })),
            Err(word) => {
                passed.push((frame, word))?;
                Ok(None)
            }
        }
    }

    /// Claims the frame of the first dirty or clean page from the LRU tail that has no fixes, and keeps the words of those before it.
    fn pass<F: Frames>(
        &self,
        frames: &mut F,
        passed: &mut Vec<(u32, Word)>,
        soiled: bool,
    ) -> Result<Option<Victim>, OutOfMemory>
        requires tied { AreTied D.seen (F.seen frames.old) self.now.state }
        requires orderly { AreOrderly self.now.state.config self.now.state.history }
        ensures looked { MatchResult result (λ found. IfNone found (HasLooked (F.seen frames.old) (F.seen frames.new)))
            (λ _. HasLooked (F.seen frames.old) (F.seen frames.new)) }
        ensures passed { IfOk result (λ found. IfNone found ((pages : List PageId)
            → ArePassedBy self.now.state.history (F.seen frames.old).rows (F.seen frames.old).found pages passed.old.items
            → ArePassedBy self.now.state.history (F.seen frames.old).rows (F.seen frames.new).found
            (pages ++ part_of self.now.state.config self.now.state.history soiled) passed.new.items)) }
        ensures stops { IfOk result (λ found. IfSome found (λ v. (pages : List PageId)
            → ArePassedBy self.now.state.history (F.seen frames.old).rows (F.seen frames.old).found pages passed.old.items
            → StopsAt self.now.state.history (F.seen frames.old).rows (F.seen frames.new).found
            (pages ++ part_of self.now.state.config self.now.state.history soiled) v.page passed.new.items)) }
        ensures taken { IfOk result (λ found. IfSome found (λ v.
            IsTaken (F.seen frames.old) (F.seen frames.new) self.now.state.history v.page v.frame v.clock)) }
        ensures fixes { KeepsRoom (F.room frames.old) (F.room frames.new) }
    {
        let mut at = self.lists.first_tried(soiled);
        while let Some(frame) = at {
            match self.try_frame(frames, passed, frame, soiled) {
                Ok(None) => (),
                Ok(Some(victim)) => return Ok(Some(victim)),
                Err(error) => return Err(error),
            }
            at = self.lists.walk(Some(frame));
        }
        Ok(None)
    }

    /// Claims the frame of a victim: the first page without fixes, among the clean ones from the LRU tail and then among the dirty ones.
    fn seek<F: Frames>(
        &self,
        frames: &mut F,
        passed: &mut Vec<(u32, Word)>,
    ) -> Result<Option<Victim>, OutOfMemory>
        requires tied { AreTied D.seen (F.seen frames.old) self.now.state }
        requires orderly { AreOrderly self.now.state.config self.now.state.history }
        requires empty { passed.old.items ≡ [] }
        ensures looked { MatchResult result (λ found. IfNone found (HasLooked (F.seen frames.old) (F.seen frames.new)))
            (λ _. HasLooked (F.seen frames.old) (F.seen frames.new)) }
        ensures passed { IfOk result (λ found. IfNone found (ArePassedBy self.now.state.history (F.seen frames.old).rows (F.seen frames.new).found
            (walk self.now.state.config self.now.state.history) passed.new.items)) }
        ensures stops { IfOk result (λ found. IfSome found (λ v. StopsAt self.now.state.history (F.seen frames.old).rows (F.seen frames.new).found
            (walk self.now.state.config self.now.state.history) v.page passed.new.items)) }
        ensures taken { IfOk result (λ found. IfSome found (λ v.
            IsTaken (F.seen frames.old) (F.seen frames.new) self.now.state.history v.page v.frame v.clock)) }
        ensures fixes { KeepsRoom (F.room frames.old) (F.room frames.new) }
    {
        match self.pass(frames, passed, false) {
            Ok(None) => self.pass(frames, passed, true),
            Ok(Some(victim)) => Ok(Some(victim)),
            Err(error) => Err(error),
        }
    }

    /// Writes the page of a frame that is claimed behind its log, and answers its LSN and up to where the log was durable. The frame keeps
    /// its image.
    fn write_claimed<F: Frames, R: RedoDisk>(
        &mut self,
        frames: &mut F,
        redo: &mut Redo<R>,
        victim: Victim,
    ) -> Result<(u64, u64), WriteErr>
        requires but { AreTiedBut D.seen (F.seen frames.old) self.old.state victim.page victim.frame }
        requires dirty { is_dirty self.old.state.history victim.page ≡ true }
        requires logged { (d : Dirty) → dirt_of (dirty self.old.state.history) victim.page ≡ Some d → d.newest ≤ redo.old.seen.end }
        ensures seen { F.seen frames.new ≡ F.seen frames.old }
        ensures fixes { KeepsRoom (F.room frames.old) (F.room frames.new) }
        ensures kept { self.new ≡ record self.old { state = record self.old.state { disk = self.new.state.disk } } }
        ensures answers { MatchResult result
            (λ w. WroteClaimed (D.seen self.old.state.disk) (D.seen self.new.state.disk) redo.new.seen
            self.old.state.history (row_at (F.seen frames.old) victim.frame).image victim.page w)
            (λ e. UnwroteClaimed D.seen self.old.state self.new.state.disk redo.old.seen redo.new.seen victim.page e) }
        ensures others { IsOtherwiseSame victim.page (D.seen self.old.state.disk) (D.seen self.new.state.disk) }
        ensures covered { (redo.new ≡ redo.old) ⊎ IsAhead self.old.state.history victim.page redo.old.seen.durable }
        ensures log { Covers (log_seen R.seen redo.old) (log_seen R.seen redo.new) }
    {
        let Victim { page, frame, .. } = victim;
        let image = frames.lift(frame);
        let lsn = image.lsn();
        let written = write_page(&mut self.disk, redo, page, &image, &mut self.buffer);
        frames.lay(frame, image);
        match written {
            Ok(upto) => Ok((lsn, upto)),
            Err(error) => Err(error),
        }
    }

    /// Writes the page of a frame that is claimed, where it is dirty. After a fault it is as dirty as it was.
    fn clean_first<F: Frames, R: RedoDisk>(
        &mut self,
        frames: &mut F,
        redo: &mut Redo<R>,
        by: Caller,
        victim: Victim,
    ) -> Result<(), WriteErr>
        requires entries { HasRoomFor 1 self.old }
        requires but { AreTiedBut D.seen (F.seen frames.old) self.old.state victim.page victim.frame }
        requires turn { HasTurn (F.seen frames.old) by }
        requires logged { (d : Dirty) → dirt_of (dirty self.old.state.history) victim.page ≡ Some d → d.newest ≤ redo.old.seen.end }
        ensures answers { MatchResult result
            (λ _. CleanedClaimed self.old.state self.new.state by victim.page)
            (λ e. UncleanedClaimed D.seen self.old self.new redo.old.seen redo.new.seen victim.page e) }
        ensures left { LeavesClaimed D.seen self.old.state self.new.state (F.seen frames.old) (F.seen frames.new) victim.page victim.frame }
        ensures covered { (redo.new ≡ redo.old) ⊎ IsAhead self.old.state.history victim.page redo.old.seen.durable }
        ensures log { KeepsLog R.seen redo.old redo.new self.old.state.history self.new.state.history }
        ensures room { self.old.room ≤ self.new.room + 1 }
        ensures fixes { KeepsRoom (F.room frames.old) (F.room frames.new) }
    {
        let page = victim.page;
        let soiled = self.lists.is_dirty(page);
        if !soiled {
            return Ok(());
        }
        match self.write_claimed(frames, redo, victim) {
            Ok((lsn, upto)) => {
                self.append(frames, by, Kind::Write { page, lsn, upto });
                Ok(())
            }
            Err(fault) => Err(fault),
        }
    }

    /// AppendsEntry that a page, which is clean, has left its frame. The frame stays claimed.
    fn let_go<F: Frames>(&mut self, frames: &mut F, by: Caller, victim: Victim, passed: Words)
        requires entries { HasRoomFor 1 self.old }
        requires but { AreTiedBut D.seen (F.seen frames.old) self.old.state victim.page victim.frame }
        requires clean { is_dirty self.old.state.history victim.page ≡ false }
        requires turn { HasTurn (F.seen frames.old) by }
        requires found { IfSome (F.seen frames.old).found (λ now. AreFound now passed) }
        ensures appends { AppendsEntry self.old.state self.new.state by (Kind.Evict victim.page victim.frame passed) }
        ensures seen { F.seen frames.new ≡ appended (F.seen frames.old) (next_entry self.old.state by (Kind.Evict victim.page victim.frame passed)) }
        ensures next { IsNextFrame self.new.state victim.frame }
        ensures room { self.old.room ≤ self.new.room + 1 }
        ensures tied { AreTied D.seen (F.seen frames.new) self.new.state }
        ensures fixes { KeepsRoom (F.room frames.old) (F.room frames.new) }
        ensures behind { (o : Opened) → IsBehind D.seen o self.old.state (F.seen frames.old)
            → IsBehind D.seen o self.new.state (F.seen frames.new) }
    {
        let Victim { page, frame, .. } = victim;
        self.append(
            frames,
            by,
            Kind::Evict {
                page,
                frame,
                passed,
            },
        );
    }

    /// Gives a claimed frame back to its page, which could not be written, and appends the refusal of the call.
    fn put_back<F: Frames>(
        &mut self,
        frames: &mut F,
        by: Caller,
        page: PageId,
        call: Call,
        victim: Victim,
        error: WriteErr,
    ) -> FrameErr
        requires entries { HasRoomFor 1 self.old }
        requires but { AreTiedBut D.seen (F.seen frames.old) self.old.state victim.page victim.frame }
        requires clock { (victim.clock ≡ (row_at (F.seen frames.old) victim.frame).clock) × (victim.clock < 2 ^ CLOCK_BITS) }
        requires asked { IsRefusable (F.seen frames.old) self.old.state by page call (cause_of error) }
        ensures refused { result ≡ refusal_of error }
        ensures appends { AppendsEntry self.old.state self.new.state by (Kind.Refused call (cause_of error)) }
        ensures rows { (F.seen frames.new).rows ≡ slice_set (F.seen frames.old).rows victim.frame
            (published_row (row_at (F.seen frames.old) victim.frame) victim.page victim.clock) }
        ensures view { Follows (next_entry self.old.state by (Kind.Refused call (cause_of error)) ∷ []) (F.seen frames.old) (F.seen frames.new) }
        ensures tied { AreTied D.seen (F.seen frames.new) self.new.state }
        ensures fixes { KeepsRoom (F.room frames.old) (F.room frames.new) }
        ensures stands { (o : Opened) (s : FramesSeen) → IsBehind D.seen o self.old.state s
            → IsBehind D.seen o self.new.state s }
    {
        let (cause, refusal) = causes_of(error);
        frames.publish(victim.frame, victim.page, victim.clock);
        self.append(frames, by, Kind::Refused { call, cause });
        refusal
    }

    /// AppendsEntry the refusal of a call for which every frame was found with a fix.
    fn refuse_full<F: Frames>(
        &mut self,
        frames: &mut F,
        by: Caller,
        page: PageId,
        call: Call,
        passed: Vec<(u32, Word)>,
    ) -> FrameErr
        requires entries { HasRoomFor 1 self.old }
        requires rest { IsAtRest D.seen self.old.state (F.seen frames.old) }
        requires asked { MayTake D.seen (F.seen frames.old) self.old.state by page }
        requires for_page { AsksFor page call }
        requires full { IsOccupied self.old.state }
        requires passed { ArePassedBy self.old.state.history (F.seen frames.old).rows (F.seen frames.old).found
            (walk self.old.state.config self.old.state.history) passed.items }
        ensures keeps { (l : LogSeen) → Keeps D.seen 1 (moment self.old.state (F.seen frames.old) l) (moment self.new.state (F.seen frames.new) l) }
        ensures answers { (l : LogSeen) → Unhad D.seen (moment self.old.state (F.seen frames.old) l) (moment self.new.state (F.seen frames.new) l) by page call result }
        ensures fixes { KeepsRoom (F.room frames.old) (F.room frames.new) }
    {
        let alloc = self.lists.allocator();
        let words = in_order(passed);
        let Ok(answer) = Vec::from_slice(alloc, words.as_slice()) else {
            return FrameErr::OutOfMemory;
        };
        let seen = Words::of(words);
        let cause = Cause::AllFixed { seen };
        self.append(frames, by, Kind::Refused { call, cause });
        let seen = Words::of(answer);
        FrameErr::AllFixed { seen }
    }

    /// Evicts a victim, which is written first where it is dirty, and answers its frame.
    fn evict<F: Frames, R: RedoDisk>(
        &mut self,
        frames: &mut F,
        redo: &mut Redo<R>,
        by: Caller,
        page: PageId,
        call: Call,
    ) -> Result<u32, FrameErr>
        requires entries { HasRoomFor 2 self.old }
        requires ready { IsReady D.seen (moment_of F.seen R.seen self.old frames.old redo.old) by }
        requires asked { MayTake D.seen (F.seen frames.old) self.old.state by page }
        requires for_page { AsksFor page call }
        requires full { IsOccupied self.old.state }
        ensures keeps { Proceeds D.seen by 2
            (moment_of F.seen R.seen self.old frames.old redo.old)
            (moment_of F.seen R.seen self.new frames.new redo.new) }
        ensures answers { HasFrameFor D.seen
            (moment_of F.seen R.seen self.old frames.old redo.old)
            (moment_of F.seen R.seen self.new frames.new redo.new) by page call result }
        ensures room { OnOk result (self.old.room ≤ self.new.room + 2) }
        ensures fixes { KeepsRoom (F.room frames.old) (F.room frames.new) }
    {
        let mut passed = Vec::new(self.lists.allocator());
        let victim = match self.seek(frames, &mut passed) {
            Ok(Some(victim)) => victim,
            Ok(None) => return Err(self.refuse_full(frames, by, page, call, passed)),
            Err(_) => return Err(FrameErr::OutOfMemory),
        };
        match self.clean_first(frames, redo, by, victim) {
            Ok(()) => {
                self.let_go(frames, by, victim, Words::of(in_order(passed)));
                Ok(victim.frame)
            }
            Err(error) => Err(self.put_back(frames, by, page, call, victim, error)),
        }
    }

    /// A frame for a page that is not resident: the next free one, or that of a victim, which is written first where it is dirty.
    ///
    /// AppendsEntry the entries `write` and `evict` of the victim, or the refusal of the call, which is a fix or a create. Memory is taken before
    /// anything changes; want of memory changes nothing. A page that could not be written stays where it is, and is as dirty as it was.
    pub(crate) fn have_frame<F: Frames, R: RedoDisk>(
        &mut self,
        frames: &mut F,
        redo: &mut Redo<R>,
        by: Caller,
        page: PageId,
        call: Call,
    ) -> Result<u32, FrameErr>
        requires entries { HasRoomFor 2 self.old }
        requires ready { IsReady D.seen (moment_of F.seen R.seen self.old frames.old redo.old) by }
        requires asked { MayTake D.seen (F.seen frames.old) self.old.state by page }
        requires for_page { AsksFor page call }
        ensures keeps { Proceeds D.seen by 2
            (moment_of F.seen R.seen self.old frames.old redo.old)
            (moment_of F.seen R.seen self.new frames.new redo.new) }
        ensures answers { HasFrameFor D.seen
            (moment_of F.seen R.seen self.old frames.old redo.old)
            (moment_of F.seen R.seen self.new frames.new redo.new) by page call result }
        ensures room { OnOk result (self.old.room ≤ self.new.room + 2) }
        ensures fixes { KeepsRoom (F.room frames.old) (F.room frames.new) }
    {
        match self.lists.next_frame() {
            Some(frame) => Ok(frame),
            None => self.evict(frames, redo, by, page, call),
        }
    }
}

/// Claims a page's frame, and answers its modify clock, which it keeps.
fn claim_at<F: Frames>(frames: &mut F, frame: u32) -> Result<u64, Word>
    requires free { IsUntouched (F.seen frames.old) frame }
    requires steady { IsSteady (F.seen frames.old) frame }
    requires resident { (row_at (F.seen frames.old) frame).resident ≡ true }
    ensures ok { (h : List Entry) (p : PageId) → home h p ≡ Some frame
        → IfOk result (λ clock. IsTaken (F.seen frames.old) (F.seen frames.new) h p frame clock) }
    ensures err { IfErr result (λ word. Finds (F.seen frames.old) frame word × (0 < fixes_of word)
        × HasLooked (F.seen frames.old) (F.seen frames.new) × IfSome (F.seen frames.new).found (λ now. Contains now (frame, word))) }
    ensures fixes { KeepsRoom (F.room frames.old) (F.room frames.new) }
{
    let clock = frames.look(frame).clock();
    match frames.claim(frame) {
        Ok(()) => Ok(clock),
        Err(word) => Err(word),
    }
}

/// The words in rising order of frame.
fn in_order(mut words: Vec<(u32, Word)>) -> Vec<(u32, Word)>
    ensures same { IsPermutation words.items result.items }
    ensures rising { IsNonDecreasingBy (λ x. x.0) result.items }
{
    words.sort_unstable_by_key(|word| word.0);
    words
}

/// What is told of a page that could not be written, in the history and in the answer.
fn causes_of(error: WriteErr) -> (Cause, FrameErr)
    ensures { (result.0 ≡ cause_of error) × (result.1 ≡ refusal_of error) }
{
    match error {
        WriteErr::RedoFault { before, after } => (
            Cause::RedoFault { before, after },
            FrameErr::RedoFault { before, after },
        ),
        WriteErr::DiskFault { before, after } => (
            Cause::DiskFault { before, after },
            FrameErr::DiskFault { before, after },
        ),
    }
}
