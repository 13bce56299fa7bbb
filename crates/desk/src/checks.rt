//! The checkpoint: from where a redo would have to begin.
ghost use Rattle.std.specs.Prelude.{◌≡◌, ◌<◌, ◌≤◌, ◌+◌, ◌^◌, length};
ghost use Rattle.page_ids.specs.declared.limits.TheConstants.{CLOCK_BITS};
ghost use Rattle.trail.specs.Dirt.{dirty, log_end};
ghost use Rattle.desk.specs.Checks.{redo_start, Checks};
ghost use Rattle.desk.specs.Steps.{IsAppended};

use crate::calls::{CallErr, Caller};
use crate::desk::Desk;
use page_disk::PageDisk;
use redo_mark::{Redo, RedoDisk};
use trail::Kind;

impl<D: PageDisk> Desk<D> {
    /// The oldest LSN of the dirty pages; where none is dirty, the log's end.
    fn checkpoint<R: RedoDisk>(&self, redo: &Redo<R>) -> u64
        requires known { log_end self.now.state.history ≤ redo.now.seen.end }
        ensures lsn { result ≡ redo_start (dirty self.now.state.history) redo.now.seen.end }
        ensures early { result ≤ redo.now.seen.end }
    {
        match self.lists.oldest() {
            Some(first) => first.oldest,
            None => redo.end(),
        }
    }

    /// Appends a checkpoint to the desk's history alone.
    fn append_check(&mut self, by: Caller, lsn: u64)
        requires places { self.old.state.config.first + length self.old.state.history + 1 < 2 ^ CLOCK_BITS }
        requires room { 0 < self.old.room }
        ensures appended { IsAppended self.old.state self.new.state by (Kind.Check lsn) }
        ensures disk { self.new.state.disk ≡ self.old.state.disk }
    {
        let entry = self.lists.next(by.pass, by.number, Kind::Check { lsn });
        self.lists.append(entry);
    }

    /// Answers from where a redo would have to begin (buf0flu's `buf_pool_get_oldest_modification_approx`): the oldest LSN of the dirty
    /// pages; where none is dirty, the log's end.
    ///
    /// Appends the entry `checkpoint`. Neither the disk nor the log is used. Where frames tell the history, their holder appends the entry to
    /// it too: then they are tied to the desk as before.
    pub fn check_at<R: RedoDisk>(&mut self, redo: &Redo<R>, by: Caller) -> Result<u64, CallErr>
        requires places { self.old.state.config.first + length self.old.state.history + 1 < 2 ^ CLOCK_BITS }
        requires known { log_end self.old.state.history ≤ redo.now.seen.end }
        ensures answers { Checks D.seen self.old.state self.new.state redo.now.seen by result }
        ensures disk { self.new.state.disk ≡ self.old.state.disk }
    {
        if self.room_for(1).is_err() {
            return Err(CallErr::OutOfMemory);
        }
        let lsn = self.checkpoint(redo);
        self.append_check(by, lsn);
        Ok(lsn)
    }
}
