//! A pass of a log, that the log is durable up to an LSN, and the cell of its marks. None of them names a device.
ghost use Rattle.std.specs.Prelude.{◌≡◌, ◌≤◌};
ghost use Rattle.redo_log.specs.Passes.{GoesOn, both};

use crate::steps;
use crate::view::{Cell, Seat};
use std::marker::Model;

/// What a caller knows of a log. Contracts see of which log it is, the marks that it last saw, how many
/// of the faults are its own, its records, and its share.
#[derive(Drop)]
pub struct RedoPass {
    pub(crate) seat: Seat,
}

impl Model for RedoPass {
    ghost use Rattle.crossbeam_utils.specs.Seq.{cell_view};
    ghost use Rattle.redo_log.specs.Passes.{Known, IsIdle, known_of};

    ghost Value = { Known };

    ghost view = { λ p. known_of p.seat.table_id (cell_view p.seat) };

    ghost invariant = { λ p. IsIdle (cell_view p.seat) };
}

/// Shows that a log is durable up to an LSN: its device keeps every byte of it below. Only `Redo::cover` makes one.
#[derive(Drop)]
pub struct Covered {
    pub(crate) seat: Seat,
    pub(crate) upto: u64,
}

impl Model for Covered {
    ghost use Rattle.crossbeam_utils.specs.Seq.{cell_view};
    ghost use Rattle.redo_log.specs.Passes.{CoveredOf, IsShown};

    ghost Value = { CoveredOf };

    ghost view = { λ c. record { log = c.seat.table_id; upto = c.upto } };

    ghost invariant = { λ c. IsShown (cell_view c.seat) c.upto };
}

impl Covered {
    /// The durable mark that was shown (InnoDB's `log_t::flushed_to_disk_lsn`).
    pub fn upto(&self) -> u64
        ensures { result ≡ self.now.upto }
    {
        self.upto
    }
}

/// The marks of a log. Contracts see which log it is.
#[derive(Drop)]
pub struct Marks {
    pub(crate) cell: Cell,
}

impl Model for Marks {
    ghost use Rattle.atomic_table.specs.Seated.{TableId};

    ghost Value = { TableId };

    ghost view = { λ m. m.cell.table.shared.table_id };
}

impl Marks {
    /// A pass takes in what another one of the same log knows.
    pub fn absorb(&self, pass: &mut RedoPass, other: RedoPass)
        requires log { (pass.old.log ≡ self.now) × (other.log ≡ self.now) }
        ensures both { pass.new ≡ both pass.old other }
    {
        let RedoPass { seat: other } = other;
        steps::join(&self.cell, &mut pass.seat, other);
    }

    /// A pass takes in that its log is durable up to an LSN.
    pub fn take_in(&self, pass: &mut RedoPass, covered: Covered)
        requires log { (pass.old.log ≡ self.now) × (covered.log ≡ self.now) }
        ensures goes { GoesOn pass.old pass.new }
        ensures rest { (pass.new.pieces ≡ pass.old.pieces) × (pass.new.met ≡ pass.old.met) }
        ensures durable { covered.upto ≤ pass.new.durable }
    {
        let Covered {
            seat: shown,
            upto: _,
        } = covered;
        steps::join(&self.cell, &mut pass.seat, shown);
    }
}
