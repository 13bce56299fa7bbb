//! A thread's create: a page that nobody reads from the disk.
ghost use Rattle.page_ids.specs.declared.limits.TheConstants.{FIX_NEED, LIMIT};
ghost use Rattle.std.specs.Prelude.{◌≡◌, ◌<◌, ◌≤◌, ◌+◌, ◌^◌, [], List, None, Ok, OnOk, IfOk, IfSome, length, reverse};
ghost use Rattle.trail.specs.Dirt.{log_end};
ghost use Rattle.trail.specs.Trails.{Opening};
ghost use Rattle.trail.specs.declared.event.Event.{Event};
ghost use Rattle.script_text.specs.declared.script.Command.TheVariants.{Create};
ghost use Rattle.script_run.specs.Openings.{Start};
ghost use Rattle.script_run.specs.Work.{HasPlayed, Does, Along, IsWorkerReady, RefusesCreate};
ghost use Rattle.script_run.specs.Workers.{working};

use crate::pass::Pass;
use desk::{Caller, CreateErr, Desk, Granted};
use frame_words::PlainFrames;
use page_disk::PageDisk;
use page_ids::{OutOfMemory, PageId};
use redo_mark::{Redo, RedoDisk};
use trail::Held;

/// The grant in the answer of a create; none where it was refused. Want of memory is no answer.
fn made_in(answer: Result<Granted, CreateErr>) -> Result<Option<Granted>, OutOfMemory>
    ensures granted { IfOk result (λ granted. IfSome granted (λ grant. answer ≡ Ok grant)) }
    ensures refused { IfOk result (λ granted. granted ≡ None → RefusesCreate answer) }
{
    match answer {
        Ok(granted) => Ok(Some(granted)),
        Err(CreateErr::OutOfMemory) => Err(OutOfMemory),
        Err(CreateErr::NoSuchPage { .. }) => Ok(None),
        Err(CreateErr::HoldFull { .. }) => Ok(None),
        Err(CreateErr::Resident { .. }) => Ok(None),
        Err(CreateErr::AllFixed { .. }) => Ok(None),
        Err(CreateErr::RedoFault { .. }) => Ok(None),
        Err(CreateErr::DiskFault { .. }) => Ok(None),
        Err(CreateErr::LogSpent { .. }) => Ok(None),
    }
}

impl Pass {
    /// Makes a page, which is then fixed. A refusal is an answer too.
    pub(crate) fn create<D: PageDisk, R: RedoDisk>(
        &mut self,
        desk: &mut Desk<D>,
        frames: &mut PlainFrames,
        redo: &mut Redo<R>,
        page: PageId,
        now: u64,
    ) -> Result<(), OutOfMemory>
        requires places { desk.old.state.config.first + length desk.old.state.history + FIX_NEED ≤ LIMIT }
        requires number { self.old.next + 1 < 2 ^ 32 }
        requires ready { IsWorkerReady D.seen desk.old.state frames.old (reverse self.old.fixed.items) }
        requires known { log_end desk.old.state.history ≤ redo.old.seen.end }
        ensures along { OnOk result (Along D.seen 1
            desk.old.state desk.new.state frames.old frames.new redo.old.seen redo.new.seen (working self.old) (working self.new)) }
        ensures done { OnOk result ((o : Opening) (start : Start) (past : List Event)
            → HasPlayed D.seen o start desk.old.state redo.old.seen (working self.old) past []
            → Does D.seen o start desk.new.state redo.new.seen (working self.new) past (Create page now)) }
        ensures opening { redo.new.opening ≡ redo.old.opening }
    {
        self.fixed.reserve(1)?;
        let number = self.next;
        let held = self.fixed.len() as u32;
        let by = Caller {
            pass: self.pass,
            number,
        };
        let answer = desk.create_at(frames, redo, by, held, page, now);
        let granted = made_in(answer)?;
        self.next = number + 1;
        if let Some(Granted { frame, .. }) = granted {
            self.fixed.push_reserved(Held {
                page,
                frame,
                number,
            });
        }
        Ok(())
    }
}
