//! The log that several passes share.
ghost use Rattle.std.specs.Prelude.{◌≡◌, ◌≤◌, ◌<◌, ◌+◌, ◌-◌, ◌++◌, ◌^◌, ℕ, [], ◌∷◌, length, min, All, false, OnErr, IfOk, IfErr, IsOk, IsErrAnd, Err};
ghost use Rattle.page_ids.specs.declared.limits.TheConstants.{LAST_LSN};
ghost use Rattle.crossbeam_utils.specs.Seq.{cell_view};
ghost use Rattle.redo_mark.specs.Records.{sealed};
ghost use Rattle.redo_mark.specs.Logs.{IsSpan};
ghost use Rattle.redo_log.specs.declared.view.TheConstants.{SHARES};
ghost use Rattle.redo_log.specs.Story.{piece_at};
ghost use Rattle.redo_log.specs.Passes.{GoesOn, MetFault, IsFirstPass, IsIdle, known_of};
ghost use Rattle.redo_log.specs.Homes.{log_of};
ghost use Rattle.redo_log.specs.Turns.{IsTurn, BeganAs};
ghost use Rattle.redo_log.specs.Ends.{IsEndOf, IsInEnd, AreAllPasses, shares_of};

use crate::passes::{Covered, Marks, RedoPass};
use crate::tail::{Home, Tail};
use crate::view::{Cell, Seat};
use crate::{steps, turns};
use keyed_lock::{Loan, Lock};
use page_ids::{LAST_LSN, OutOfMemory};
use redo_mark::{CoverErr, Draft, Log, LogSpent, RedoDisk, RedoEnd, Span};
use std::alloc::Global;
use std::marker::Model;
use std::snapshot::Snapshot;
use std::sync::Wait;

/// A log that several passes append to. Contracts see which log it is, the LSN of its device's first byte, and that device as it was at
/// the start.
#[derive(Drop)]
pub struct Redo<R: RedoDisk> {
    marks: Marks,
    lock: Lock<Tail<R>, Home<R>>,
}

impl<R: RedoDisk> Model for Redo<R> {
    ghost use Rattle.std.specs.Prelude.{◌≡◌};
    ghost use Rattle.redo_log.specs.Passes.{LogOf};
    ghost use Rattle.redo_log.specs.Homes.{log_of};

    ghost Value = { LogOf R };

    ghost view = { λ r. log_of r.lock };

    ghost invariant = { λ r. r.lock.marks.value ≡ r.marks };
}

/// Why no log was opened: the first of these that is so.
#[derive(Clone, Copy, Debug, PartialEq, Eq)]
pub enum StartCause {
    /// The device is so long that the log would end above 2^63.
    LogSpent { end: u64 },
    OutOfMemory,
}

/// No log was opened, and this is its device.
#[derive(Debug, Drop)]
pub struct StartErr<R: RedoDisk> {
    pub cause: StartCause,
    pub disk: R,
}

/// The log on a device, and the first pass.
fn open<R: RedoDisk, W: Wait>(
    rt: &W,
    alloc: Global,
    disk: R,
    first: u64,
) -> Result<(Redo<R>, RedoPass), (OutOfMemory, R)>
    requires limit { first + (R.seen disk).opened ≤ LAST_LSN }
    ensures fresh { IfOk result (λ r. IsFirstPass r.0.log (first + (R.seen disk).opened) (R.seen disk).faults r.1) }
    ensures log { IfOk result (λ r. (r.0.first ≡ first) × (r.0.opening ≡ disk)) }
    ensures err { IfErr result (λ e. e.1 ≡ disk) }
{
    let opening = Snapshot::of(&disk);
    let Ok((cell, mut seat)) = Cell::ruled(alloc, [0, 0, 0]) else {
        return Err((OutOfMemory, disk));
    };
    let log = Log::start(alloc, disk, first);
    steps::open(&cell, rt, &mut seat, log.end(), log.faults());
    let keeper = steps::hand(&cell, &mut seat);
    let marks = Marks { cell };
    let home = Home {
        marks: Snapshot::of(&marks),
        opening,
        first,
    };
    match Lock::new(alloc, Tail::of(log, keeper), &home) {
        Ok(lock) => Ok((Redo { marks, lock }, RedoPass { seat })),
        Err((_, tail)) => {
            let (log, _) = tail.parts();
            Err((OutOfMemory, log.close().disk))
        }
    }
}

impl<R: RedoDisk> Redo<R> {
    /// The log on a device, all of it durable, and its first pass. `first` is the LSN of the device's first byte.
    pub fn start<W: Wait>(
        rt: &W,
        alloc: Global,
        disk: R,
        first: u64,
    ) -> Result<(Redo<R>, RedoPass), StartErr<R>>
        ensures fresh { IfOk result (λ r. IsFirstPass r.0.log (first + (R.seen disk).opened) (R.seen disk).faults r.1) }
        ensures log { IfOk result (λ r. (r.0.first ≡ first) × (r.0.opening ≡ disk)) }
        ensures limit { IfOk result (λ r. first + (R.seen disk).opened ≤ LAST_LSN) }
        ensures err { IfErr result (λ e. e.disk ≡ disk) }
        ensures spent { (end : ℕ) → IsErrAnd result (λ e. e.cause ≡ StartCause.LogSpent end)
            → (end ≡ (R.seen disk).opened) × (LAST_LSN < first + (R.seen disk).opened) }
        ensures far { LAST_LSN < first + (R.seen disk).opened → IsErrAnd result (λ e. e.cause ≡ StartCause.LogSpent (R.seen disk).opened) }
    {
        let end = disk.end();
        if first > LAST_LSN || end > LAST_LSN - first {
            return Err(StartErr {
                cause: StartCause::LogSpent { end },
                disk,
            });
        }
        match open(rt, alloc, disk, first) {
            Ok(opened) => Ok(opened),
            Err((_, disk)) => Err(StartErr {
                cause: StartCause::OutOfMemory,
                disk,
            }),
        }
    }

    /// Another pass, which knows the same marks, met no fault, and has no record. It gets one share of the pass that it comes from; where
    /// that has no second one, its share is lost.
    pub fn pass(&self, pass: &mut RedoPass) -> RedoPass
        requires pass { pass.old.log ≡ self.now.log }
        ensures less { pass.new ≡ record pass.old { share = pass.old.share - 1; lost = pass.old.lost + (2 - pass.old.share) } }
        ensures new { result ≡ record pass.new { met = 0; pieces = []; share = min 1 pass.new.share } }
    {
        let seat = steps::share(&self.marks.cell, &mut pass.seat);
        RedoPass { seat }
    }

    /// The marks, by which a pass takes in another where nobody knows the device.
    pub fn marks(&self) -> &Marks
        ensures { result.now ≡ self.now.log }
    {
        &self.marks
    }

    /// The LSN behind the last record (InnoDB's `log_get_lsn`).
    pub fn end<W: Wait>(&self, rt: &W, pass: &mut RedoPass) -> u64
        requires pass { pass.old.log ≡ self.now.log }
        ensures goes { GoesOn pass.old pass.new }
        ensures rest { (pass.new.pieces ≡ pass.old.pieces) × (pass.new.met ≡ pass.old.met) }
        ensures end { result ≡ pass.new.end }
    {
        steps::look(&self.marks.cell, rt, &mut pass.seat)[0]
    }

    /// The LSN up to which the log is durable.
    pub fn durable<W: Wait>(&self, rt: &W, pass: &mut RedoPass) -> u64
        requires pass { pass.old.log ≡ self.now.log }
        ensures goes { GoesOn pass.old pass.new }
        ensures rest { (pass.new.pieces ≡ pass.old.pieces) × (pass.new.met ≡ pass.old.met) }
        ensures durable { (result ≡ pass.new.durable) × (result ≤ pass.new.end) }
    {
        steps::look(&self.marks.cell, rt, &mut pass.seat)[1]
    }

    /// Waits for the turn: the view is the keeper's then, and the log is in the caller's hands.
    fn enter<W: Wait>(&self, rt: &W, seat: &mut Seat) -> (Log<R>, Loan<'_, Tail<R>, Home<R>>)
        requires cell { seat.old.table_id ≡ self.now.log }
        ensures turn { IsTurn (cell_view seat.new) result.0.seen }
        ensures began { BeganAs R.seen self.now result.0 }
        ensures goes { GoesOn (known_of seat.old.table_id (cell_view seat.old)) (known_of seat.new.table_id (cell_view seat.new)) }
        ensures rest { ((cell_view seat.new).pieces ≡ (cell_view seat.old).pieces) × ((cell_view seat.new).met ≡ (cell_view seat.old).met) }
        ensures loan { log_of result.1 ≡ self.now }
    {
        let (tail, loan) = self.lock.take(rt);
        let (log, keeper) = tail.parts();
        steps::take(&self.marks.cell, seat, keeper);
        steps::look(&self.marks.cell, rt, seat);
        (log, loan)
    }

    /// Ends the turn.
    fn leave(&self, seat: &mut Seat, log: Log<R>, loan: Loan<'_, Tail<R>, Home<R>>)
        requires cell { seat.old.table_id ≡ self.now.log }
        requires turn { IsTurn (cell_view seat.old) log.seen }
        requires began { BeganAs R.seen self.now log }
        requires loan { log_of loan ≡ self.now }
        ensures known { known_of seat.new.table_id (cell_view seat.new) ≡ known_of seat.old.table_id (cell_view seat.old) }
        ensures idle { (cell_view seat.new).keeps ≡ false }
    {
        let keeper = steps::hand(&self.marks.cell, seat);
        loan.give(Tail::of(log, keeper));
    }

    /// Appends the record of a draft at the log's end, in memory: no device is used, and no memory is taken.
    ///
    /// It is refused exactly where the record would end above 2^63; the draft is then dropped (InnoDB's `log_buffer_reserve`).
    pub fn append<W: Wait>(
        &self,
        rt: &W,
        pass: &mut RedoPass,
        draft: Draft,
    ) -> Result<Span, LogSpent>
        requires pass { pass.old.log ≡ self.now.log }
        ensures goes { GoesOn pass.old pass.new }
        ensures span { IfOk result (IsSpan pass.old.end pass.new.end (length draft + 8)) }
        ensures pieces { IfOk result (λ s. pass.new.pieces ≡ pass.old.pieces ++ piece_at s.start (sealed draft s.start) ∷ []) }
        ensures spent { IfErr result (λ e. (pass.old.end ≤ e.end) × (e.end ≤ pass.new.end) × (LAST_LSN < e.end + length draft + 8)) }
        ensures err { OnErr result (pass.new.pieces ≡ pass.old.pieces) }
        ensures unused { pass.new.met ≡ pass.old.met }
    {
        let seat = &mut pass.seat;
        let (mut log, loan) = self.enter(rt, seat);
        let answer = turns::append(&self.marks.cell, rt, seat, &mut log, draft);
        self.leave(seat, log, loan);
        answer
    }

    /// Makes the log durable up to an LSN at least. It takes no memory.
    ///
    /// Where the LSN is durable no device is used. Else the records that aren't are written in their order, each by one write, the device
    /// syncs, and only then the durable mark rises, to the end that was written (InnoDB's `log_write_up_to`). After a fault nothing more is
    /// durable, and the same bytes are written again next time, at the same places.
    pub fn cover<W: Wait>(&self, rt: &W, pass: &mut RedoPass, lsn: u64) -> Result<Covered, CoverErr>
        requires pass { pass.old.log ≡ self.now.log }
        ensures goes { GoesOn pass.old pass.new }
        ensures pieces { pass.new.pieces ≡ pass.old.pieces }
        ensures ok { IfOk result (λ c. (c.log ≡ pass.old.log) × (lsn ≤ c.upto) × (c.upto ≡ pass.new.durable) × (c.upto ≤ pass.new.end)) }
        ensures idle { lsn ≤ pass.old.durable → IsOk result × (pass.new.met ≡ pass.old.met) }
        ensures beyond { (l end : ℕ) → result ≡ Err (CoverErr.BeyondEnd l end)
            → (l ≡ lsn) × (pass.old.end ≤ end) × (end ≤ pass.new.end) × (end < lsn) }
        ensures unused { (l end : ℕ) → result ≡ Err (CoverErr.BeyondEnd l end) → pass.new.met ≡ pass.old.met }
        ensures fault { (before after : ℕ) → result ≡ Err (CoverErr.Fault before after)
            → MetFault pass.old pass.new before after × (lsn ≤ pass.new.end) × (pass.new.durable < lsn) }
    {
        let seat = &mut pass.seat;
        let upto = match self.reach(rt, seat, lsn) {
            Ok(upto) => upto,
            Err(error) => return Err(error),
        };
        let seat = steps::split(&self.marks.cell, seat);
        Ok(Covered { seat, upto })
    }

    /// The durable mark, once it is at this LSN at least.
    fn reach<W: Wait>(&self, rt: &W, seat: &mut Seat, lsn: u64) -> Result<u64, CoverErr>
        requires cell { seat.old.table_id ≡ self.now.log }
        requires idle { IsIdle (cell_view seat.old) }
        ensures idle { IsIdle (cell_view seat.new) }
        ensures goes { GoesOn (known_of seat.old.table_id (cell_view seat.old)) (known_of seat.new.table_id (cell_view seat.new)) }
        ensures pieces { (cell_view seat.new).pieces ≡ (cell_view seat.old).pieces }
        ensures ok { IfOk result (λ upto. (upto ≡ (cell_view seat.new).durable) × (lsn ≤ upto) × (upto ≤ (cell_view seat.new).end)) }
        ensures known { lsn ≤ (cell_view seat.old).durable → IsOk result × ((cell_view seat.new).met ≡ (cell_view seat.old).met) }
        ensures beyond { (l end : ℕ) → result ≡ Err (CoverErr.BeyondEnd l end)
            → (l ≡ lsn) × ((cell_view seat.old).end ≤ end) × (end ≤ (cell_view seat.new).end) × (end < lsn) }
        ensures unused { (l end : ℕ) → result ≡ Err (CoverErr.BeyondEnd l end) → (cell_view seat.new).met ≡ (cell_view seat.old).met }
        ensures fault { (before after : ℕ) → result ≡ Err (CoverErr.Fault before after)
            → MetFault (known_of seat.old.table_id (cell_view seat.old)) (known_of seat.new.table_id (cell_view seat.new)) before after
            × (lsn ≤ (cell_view seat.new).end) × ((cell_view seat.new).durable < lsn) }
    {
        let marks = steps::look(&self.marks.cell, rt, seat);
        if lsn <= marks[1] {
            return Ok(marks[1]);
        }
        let (mut log, loan) = self.enter(rt, seat);
        let answer = turns::cover(&self.marks.cell, rt, seat, &mut log, lsn);
        self.leave(seat, log, loan);
        answer
    }

    /// Ends the log and hands its device back. Records that are not durable are dropped. It uses no device.
    pub fn close<W: Wait>(self, rt: &W, passes: Vec<RedoPass>) -> RedoEnd<R>
        requires passes { All (λ p. p.log ≡ self.log) passes.items }
        ensures end { IsEndOf R.seen self result }
        ensures passes { All (IsInEnd self.first (R.seen result.disk) result.end result.durable) passes.items }
        ensures all { shares_of passes.items ≡ SHARES → AreAllPasses R.seen self result passes.items }
    {
        let Redo { marks, lock } = self;
        let tail = lock.close(rt);
        let (log, mut keeper) = tail.parts();
        turns::gather(&marks.cell, &mut keeper, passes);
        steps::look(&marks.cell, rt, &mut keeper);
        log.close()
    }
}
