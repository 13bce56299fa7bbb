//! A thread's scan: pages in rising order, each fixed, read and given back.
ghost use Rattle.page_ids.specs.declared.limits.TheConstants.{LIMIT};
ghost use Rattle.std.specs.Prelude.{◌≡◌, ◌<◌, ◌≤◌, ◌+◌, ◌-◌, ◌*◌, ◌^◌, [], List, OnOk, length, reverse};
ghost use Rattle.trail.specs.Dirt.{log_end};
ghost use Rattle.trail.specs.Trails.{Opening};
ghost use Rattle.trail.specs.declared.event.Event.{Event};
ghost use Rattle.script_text.specs.Within.{IsInRange};
ghost use Rattle.script_text.specs.declared.script.Command.TheVariants.{Scan};
ghost use Rattle.script_run.specs.Openings.{Start};
ghost use Rattle.script_run.specs.Work.{HasPlayed, StandsBehind, IsWorkerReady};
ghost use Rattle.script_run.specs.Several.{AlongFew, Done, Looked};
ghost use Rattle.script_run.specs.Workers.{working};

use crate::pass::Pass;
use desk::Desk;
use frame_words::PlainFrames;
use page_disk::PageDisk;
use page_ids::{OutOfMemory, PageId};
use redo_mark::{Redo, RedoDisk};
use std::alloc::Global;

impl Pass {
    /// Fixes a page; where that is granted, reads four bytes of its body's beginning and gives just that fix back.
    fn look_at<D: PageDisk, R: RedoDisk>(
        &mut self,
        alloc: Global,
        desk: &mut Desk<D>,
        frames: &mut PlainFrames,
        redo: &mut Redo<R>,
        page: PageId,
        now: u64,
    ) -> Result<(), OutOfMemory>
        requires places { desk.old.state.config.first + 2 * length desk.old.state.history + 98310 ≤ LIMIT }
        requires number { self.old.next + 3 < 2 ^ 32 }
        requires ready { IsWorkerReady D.seen desk.old.state frames.old (reverse self.old.fixed.items) }
        requires known { log_end desk.old.state.history ≤ redo.old.seen.end }
        ensures along { OnOk result (AlongFew D.seen 3
            desk.old.state desk.new.state frames.old frames.new redo.old.seen redo.new.seen (working self.old) (working self.new)) }
        ensures done { OnOk result ((o : Opening) (start : Start) (past : List Event)
            → HasPlayed D.seen o start desk.old.state redo.old.seen (working self.old) past []
            → StandsBehind D.seen o start desk.old.state frames.old
            → Looked D.seen o start desk.new.state redo.new.seen (working self.new) past page now) }
        ensures opening { redo.new.opening ≡ redo.old.opening }
    {
        let held = self.fixed.len();
        self.fix(desk, frames, redo, page, now)?;
        if self.fixed.len() == held {
            return Ok(());
        }
        self.read(alloc, desk, frames, page, 38, 4)?;
        self.unfix(desk, frames, page)
    }

    /// Looks at the pages of a space from `from` to the one with the number `last`. A page whose fix is refused is passed over.
    pub(crate) fn scan<D: PageDisk, R: RedoDisk>(
        &mut self,
        alloc: Global,
        desk: &mut Desk<D>,
        frames: &mut PlainFrames,
        redo: &mut Redo<R>,
        from: PageId,
        last: u32,
        now: u64,
    ) -> Result<(), OutOfMemory>
        requires places { desk.old.state.config.first + 2 * length desk.old.state.history + 98310 * (last - from.page + 1) ≤ LIMIT }
        requires number { self.old.next + 3 * (last - from.page + 1) < 2 ^ 32 }
        requires ready { IsWorkerReady D.seen desk.old.state frames.old (reverse self.old.fixed.items) }
        requires range { IsInRange desk.old.state.config.page (Scan from last now) }
        requires known { log_end desk.old.state.history ≤ redo.old.seen.end }
        ensures along { OnOk result (AlongFew D.seen (3 * (last - from.page + 1))
            desk.old.state desk.new.state frames.old frames.new redo.old.seen redo.new.seen (working self.old) (working self.new)) }
        ensures done { OnOk result ((o : Opening) (start : Start) (past : List Event)
            → HasPlayed D.seen o start desk.old.state redo.old.seen (working self.old) past []
            → StandsBehind D.seen o start desk.old.state frames.old
            → Done D.seen o start desk.new.state redo.new.seen (working self.new) past (Scan from last now)) }
        ensures opening { redo.new.opening ≡ redo.old.opening }
    {
        let count = last - from.page + 1;
        for i in 0..count {
            let page = PageId {
                space: from.space,
                page: from.page + i,
            };
            self.look_at(alloc, desk, frames, redo, page, now)?;
        }
        Ok(())
    }
}
