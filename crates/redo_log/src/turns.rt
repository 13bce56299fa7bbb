//! What a pass does in its turn, when its view is the keeper's and the log is in its hands.
ghost use Rattle.std.specs.Prelude.{◌≡◌, ◌≤◌, ◌<◌, ◌+◌, ◌++◌, ◌^◌, ℕ, [], ◌∷◌, length, All, IfOk, IfErr, OnErr, Err};
ghost use Rattle.page_ids.specs.declared.limits.TheConstants.{LAST_LSN};
ghost use Rattle.crossbeam_utils.specs.Seq.{cell_view};
ghost use Rattle.redo_mark.specs.Records.{sealed};
ghost use Rattle.redo_mark.specs.Logs.{IsSpan};
ghost use Rattle.redo_log.specs.Story.{piece_at};
ghost use Rattle.redo_log.specs.Marks.{bytes_of};
ghost use Rattle.redo_log.specs.Passes.{GoesOn, MetFault, known_of};
ghost use Rattle.redo_log.specs.Turns.{IsTurn, IsSameLog};
ghost use Rattle.redo_log.specs.Ends.{IsKnownBy, shares_of, sizes_of, mets_of};

use crate::passes::RedoPass;
use crate::steps;
use crate::view::{Cell, Seat};
use redo_mark::{CoverErr, Draft, Log, LogSpent, RedoDisk, Span};
use std::snapshot::Snapshot;
use std::sync::Wait;

/// Appends the record of a draft.
pub(crate) fn append<R: RedoDisk, W: Wait>(
    cell: &Cell,
    rt: &W,
    seat: &mut Seat,
    log: &mut Log<R>,
    draft: Draft,
) -> Result<Span, LogSpent>
    requires cell { seat.old.table_id ≡ cell.now.table.shared.table_id }
    requires turn { IsTurn (cell_view seat.old) log.old.seen }
    requires share { 0 < (cell_view seat.old).share + (cell_view seat.old).lost }
    ensures turn { IsTurn (cell_view seat.new) log.new.seen }
    ensures same { IsSameLog R.seen log.old log.new }
    ensures goes { GoesOn (known_of seat.old.table_id (cell_view seat.old)) (known_of seat.new.table_id (cell_view seat.new)) }
    ensures span { IfOk result (IsSpan (cell_view seat.old).end (cell_view seat.new).end (length draft + 8)) }
    ensures pieces { IfOk result (λ s. (cell_view seat.new).pieces ≡ (cell_view seat.old).pieces ++ piece_at s.start (sealed draft s.start) ∷ []) }
    ensures spent { IfErr result (λ e. (e.end ≡ (cell_view seat.new).end) × (LAST_LSN < e.end + length draft + 8)) }
    ensures err { OnErr result ((cell_view seat.new).pieces ≡ (cell_view seat.old).pieces) }
    ensures unused { (cell_view seat.new).met ≡ (cell_view seat.old).met }
{
    let told = Snapshot::of(&draft);
    let span = log.append(draft)?;
    log.is_measured();
    let words = [log.end(), log.durable(), log.faults()];
    steps::append(cell, rt, seat, told, span.start, words);
    Ok(span)
}

/// Makes the log durable up to an LSN.
pub(crate) fn cover<R: RedoDisk, W: Wait>(
    cell: &Cell,
    rt: &W,
    seat: &mut Seat,
    log: &mut Log<R>,
    lsn: u64,
) -> Result<u64, CoverErr>
    requires cell { seat.old.table_id ≡ cell.now.table.shared.table_id }
    requires turn { IsTurn (cell_view seat.old) log.old.seen }
    requires share { 0 < (cell_view seat.old).share + (cell_view seat.old).lost }
    ensures turn { IsTurn (cell_view seat.new) log.new.seen }
    ensures same { IsSameLog R.seen log.old log.new }
    ensures goes { GoesOn (known_of seat.old.table_id (cell_view seat.old)) (known_of seat.new.table_id (cell_view seat.new)) }
    ensures pieces { (cell_view seat.new).pieces ≡ (cell_view seat.old).pieces }
    ensures ok { IfOk result (λ upto. (upto ≡ (cell_view seat.new).durable) × (lsn ≤ upto) × (upto ≤ (cell_view seat.new).end)) }
    ensures beyond { (l end : ℕ) → result ≡ Err (CoverErr.BeyondEnd l end)
        → (l ≡ lsn) × (end ≡ (cell_view seat.new).end) × (end < lsn) }
    ensures unused { (l end : ℕ) → result ≡ Err (CoverErr.BeyondEnd l end) → (cell_view seat.new).met ≡ (cell_view seat.old).met }
    ensures fault { (before after : ℕ) → result ≡ Err (CoverErr.Fault before after)
        → MetFault (known_of seat.old.table_id (cell_view seat.old)) (known_of seat.new.table_id (cell_view seat.new)) before after
        × (lsn ≤ (cell_view seat.new).end) × ((cell_view seat.new).durable < lsn) }
{
    let answer = log.cover(lsn);
    log.is_measured();
    steps::mark(cell, rt, seat, log.end(), log.durable(), log.faults());
    match answer {
        Ok(covered) => Ok(covered.upto()),
        Err(error) => Err(error),
    }
}

/// The keeper's view takes in what these passes know.
pub(crate) fn gather(cell: &Cell, keeper: &mut Seat, mut passes: Vec<RedoPass>)
    requires cell { keeper.old.table_id ≡ cell.now.table.shared.table_id }
    requires passes { All (λ p. p.log ≡ cell.now.table.shared.table_id) passes.items }
    ensures cell { keeper.new.table_id ≡ keeper.old.table_id }
    ensures same { ((cell_view keeper.new).keeps ≡ (cell_view keeper.old).keeps) × ((cell_view keeper.new).story ≡ (cell_view keeper.old).story) }
    ensures passes { All (IsKnownBy (cell_view keeper.new)) passes.items }
    ensures shares { (cell_view keeper.new).share ≡ (cell_view keeper.old).share + shares_of passes.items }
    ensures sizes { bytes_of (cell_view keeper.new) ≡ bytes_of (cell_view keeper.old) + sizes_of passes.items }
    ensures mets { (cell_view keeper.new).met ≡ (cell_view keeper.old).met + mets_of passes.items }
{
    while let Some(RedoPass { seat }) = passes.pop() {
        steps::join(cell, keeper, seat);
    }
}
