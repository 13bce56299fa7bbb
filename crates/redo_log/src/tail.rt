//! What lies under the lock: a log on its device, and the view of the marks that knows the whole log.
ghost use Rattle.std.specs.Prelude.{◌≡◌, []};
ghost use Rattle.crossbeam_utils.specs.Seq.{cell_view};

use crate::passes::Marks;
use crate::view::Seat;
use keyed_lock::Keyed;
use redo_mark::{Log, RedoDisk};
use std::marker::Model;
use std::snapshot::Snapshot;

/// Of which log a lock keeps the tail: its marks, its device as it was at the start, and the LSN of that device's first byte.
#[derive(Drop)]
pub struct Home<R> {
    pub(crate) marks: Snapshot<Marks>,
    pub(crate) opening: Snapshot<R>,
    pub(crate) first: u64,
}

/// A log, with the records that aren't durable, and the keeper's view.
#[derive(Drop)]
pub struct Tail<R: RedoDisk> {
    log: Log<R>,
    keeper: Seat,
}

impl<R: RedoDisk> Model for Tail<R> {
    ghost use Rattle.std.specs.Prelude.{◌≡◌, []};
    ghost use Rattle.crossbeam_utils.specs.Seq.{cell_view};
    ghost use Rattle.redo_log.specs.Turns.{TailOf};

    ghost Value = { TailOf R };

    ghost view = { λ t. record { state = t.log; cell = t.keeper.table_id; keeper = cell_view t.keeper } };

    ghost invariant = { λ t. t.keeper.me.1 ≡ [] };
}

impl<R: RedoDisk> Keyed<Home<R>> for Tail<R> {
    ghost use Rattle.redo_log.specs.Homes.{log_of};
    ghost use Rattle.redo_log.specs.Turns.{IsTailOf};

    ghost fits = { λ home. IsTailOf R.seen (log_of home) };
}

impl<R: RedoDisk> Tail<R> {
    /// Puts both together.
    pub(crate) fn of(log: Log<R>, keeper: Seat) -> Tail<R>
        requires { keeper.me.1 ≡ [] }
        ensures { (result.state ≡ log) × (result.cell ≡ keeper.table_id) × (result.keeper ≡ cell_view keeper) }
    {
        Tail { log, keeper }
    }

    /// The log, and the keeper's view.
    pub(crate) fn parts(self) -> (Log<R>, Seat)
        ensures log { result.0 ≡ self.state }
        ensures keeper { (result.1.table_id ≡ self.cell) × (cell_view result.1 ≡ self.keeper) × (result.1.me.1 ≡ []) }
    {
        let Tail { log, keeper } = self;
        (log, keeper)
    }
}
