//! The steps of the marks, each with what it asks.
ghost use Rattle.std.specs.Prelude.{◌≡◌, ◌≤◌, ◌<◌, ◌+◌, ◌++◌, [], ◌∷◌, length, true, false};
ghost use Rattle.crossbeam_utils.specs.Seq.{cell_view};
ghost use Rattle.redo_mark.specs.Records.{sealed};
ghost use Rattle.redo_log.specs.Story.{end_of, longer, piece_at};
ghost use Rattle.redo_log.specs.Marks.{IsSoundStory, Looks, words_of, first_view, taken, left, keeper_of, again, shared, less, joined, appended, begun, raised};

use crate::view::{Append, Appended, Cell, Keeper, Look, Mark, Open, Passes, Seat, Shares, Whole};
use redo_mark::Draft;
use std::marker::Brand;
use std::snapshot::Snapshot;
use std::sync::Wait;

/// Loads the marks.
pub(crate) fn look<W: Wait>(cell: &Cell, rt: &W, seat: &mut Seat) -> [u64; 3]
    requires cell { seat.old.table_id ≡ cell.now.table.shared.table_id }
    ensures cell { seat.new.table_id ≡ seat.old.table_id }
    ensures view { Looks (cell_view seat.old) result result (cell_view seat.new) }
{
    cell.load_as::<Look, W>(rt, seat)
}

/// Opens a log that ends here, all of it durable.
pub(crate) fn open<W: Wait>(cell: &Cell, rt: &W, seat: &mut Seat, end: u64, faults: u64)
    requires cell { seat.old.table_id ≡ cell.now.table.shared.table_id }
    requires first { cell_view seat.old ≡ first_view }
    ensures cell { seat.new.table_id ≡ seat.old.table_id }
    ensures view { cell_view seat.new ≡ begun (cell_view seat.old) end end faults }
{
    cell.swap_as::<Open, W>(rt, seat, [end, end, faults]);
}

/// The record of a draft stands at the log's end.
pub(crate) fn append<W: Wait>(
    cell: &Cell,
    rt: &W,
    seat: &mut Seat,
    draft: Snapshot<Draft>,
    start: u64,
    words: [u64; 3],
)
    requires cell { seat.old.table_id ≡ cell.now.table.shared.table_id }
    requires keeps { (cell_view seat.old).keeps ≡ true }
    requires start { start ≡ end_of (cell_view seat.old).story }
    requires words { words ≡ words_of (longer (cell_view seat.old).story (sealed draft.value start)) }
    requires sound { IsSoundStory (cell_view seat.old).story }
    requires share { 0 < (cell_view seat.old).share + (cell_view seat.old).lost }
    ensures cell { seat.new.table_id ≡ seat.old.table_id }
    ensures view { cell_view seat.new ≡ appended (cell_view seat.old) (piece_at start (sealed draft.value start)) }
{
    append_piece::<W, Brand>(cell, rt, seat, draft, start, words);
}

/// The same, where `E` names the record.
fn append_piece<W: Wait, E: Appended>(
    cell: &Cell,
    rt: &W,
    seat: &mut Seat,
    draft: Snapshot<Draft>,
    start: u64,
    words: [u64; 3],
)
    requires piece { E.piece ≡ piece_at start (sealed draft.value start) }
    requires cell { seat.old.table_id ≡ cell.now.table.shared.table_id }
    requires keeps { (cell_view seat.old).keeps ≡ true }
    requires start { start ≡ end_of (cell_view seat.old).story }
    requires words { words ≡ words_of (longer (cell_view seat.old).story (sealed draft.value start)) }
    requires sound { IsSoundStory (cell_view seat.old).story }
    requires share { 0 < (cell_view seat.old).share + (cell_view seat.old).lost }
    ensures cell { seat.new.table_id ≡ seat.old.table_id }
    ensures view { cell_view seat.new ≡ appended (cell_view seat.old) E.piece }
{
    let _ = (draft, start);
    cell.swap_as::<Append<E>, W>(rt, seat, words);
}

/// The durable mark and the count of faults are these.
pub(crate) fn mark<W: Wait>(
    cell: &Cell,
    rt: &W,
    seat: &mut Seat,
    end: u64,
    durable: u64,
    faults: u64,
)
    requires cell { seat.old.table_id ≡ cell.now.table.shared.table_id }
    requires keeps { (cell_view seat.old).keeps ≡ true }
    requires end { end ≡ end_of (cell_view seat.old).story }
    requires later { ((cell_view seat.old).story.durable ≤ durable) × ((cell_view seat.old).story.faults ≤ faults) }
    requires sound { ((cell_view seat.old).story.opened ≤ durable) × (durable ≤ end) }
    requires share { 0 < (cell_view seat.old).share + (cell_view seat.old).lost }
    ensures cell { seat.new.table_id ≡ seat.old.table_id }
    ensures view { cell_view seat.new ≡ raised (cell_view seat.old) durable faults }
{
    cell.swap_as::<Mark, W>(rt, seat, [end, durable, faults]);
}

/// Another view, with the same marks.
pub(crate) fn split(cell: &Cell, seat: &mut Seat) -> Seat
    requires cell { seat.old.table_id ≡ cell.now.table.shared.table_id }
    ensures old { (seat.new.table_id ≡ seat.old.table_id) × (cell_view seat.new ≡ cell_view seat.old) }
    ensures new { (result.table_id ≡ seat.old.table_id) × (cell_view result ≡ again (cell_view seat.old)) }
{
    cell.split_pass::<Passes>(seat)
}

/// Another view, with the same marks and a share, where there is a second one.
pub(crate) fn share(cell: &Cell, seat: &mut Seat) -> Seat
    requires cell { seat.old.table_id ≡ cell.now.table.shared.table_id }
    requires share { 0 < (cell_view seat.old).share + (cell_view seat.old).lost }
    ensures old { (seat.new.table_id ≡ seat.old.table_id) × (cell_view seat.new ≡ less (cell_view seat.old)) }
    ensures new { (result.table_id ≡ seat.old.table_id) × (cell_view result ≡ shared (cell_view seat.old)) }
{
    cell.split_pass::<Shares>(seat)
}

/// Takes in what another view knows.
pub(crate) fn join(cell: &Cell, seat: &mut Seat, mut other: Seat)
    requires cell { (seat.old.table_id ≡ cell.now.table.shared.table_id) × (other.table_id ≡ cell.now.table.shared.table_id) }
    requires idle { (cell_view other).keeps ≡ false }
    ensures { (seat.new.table_id ≡ seat.old.table_id) × (cell_view seat.new ≡ joined (cell_view seat.old) (cell_view other)) }
{
    let whole = cell.split_pass::<Whole>(&mut other);
    cell.join_pass::<Passes>(seat, whole);
}

/// The view becomes the keeper's.
pub(crate) fn take(cell: &Cell, seat: &mut Seat, keeper: Seat)
    requires cell { (seat.old.table_id ≡ cell.now.table.shared.table_id) × (keeper.table_id ≡ cell.now.table.shared.table_id) }
    requires keeper { ((cell_view keeper).keeps ≡ true) × ((cell_view keeper).share ≡ 0) × (keeper.me.1 ≡ []) }
    ensures { (seat.new.table_id ≡ seat.old.table_id) × (cell_view seat.new ≡ taken (cell_view seat.old) (cell_view keeper)) }
{
    cell.join_pass::<Keeper>(seat, keeper);
}

/// The view is the keeper's no more.
pub(crate) fn hand(cell: &Cell, seat: &mut Seat) -> Seat
    requires cell { seat.old.table_id ≡ cell.now.table.shared.table_id }
    requires keeps { (cell_view seat.old).keeps ≡ true }
    ensures old { (seat.new.table_id ≡ seat.old.table_id) × (cell_view seat.new ≡ left (cell_view seat.old)) }
    ensures keeper { (result.table_id ≡ seat.old.table_id) × (cell_view result ≡ keeper_of (cell_view seat.old)) × (result.me.1 ≡ []) }
{
    cell.split_pass::<Keeper>(seat)
}
