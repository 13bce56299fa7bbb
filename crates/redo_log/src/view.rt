//! What a pass knows, and the rule of the marks.
ghost use Rattle.std.specs.Prelude.{List, ℕ};

use atomic_table::{Join, Split};
use crossbeam_utils::atomic::seq_cell::{Pass, RuledSeqCell};
use crossbeam_utils::rule::{Outcome, Protocol};
use std::collections::LinkedList;
use std::marker::{Brand, PhantomData};

/// Bytes that stand in the log from this LSN on. No value of it is made.
pub struct Piece {
    pub start: u64,
    pub bytes: LinkedList<u64>,
}

/// The shares of all passes of a log together.
pub const SHARES: u64 = 1 << 32;

/// A log: where it ended at its opening, its bytes from there on, its durable mark, and its device's count of faults. No value of it is
/// made.
pub struct Story {
    pub opened: u64,
    pub bytes: LinkedList<u64>,
    pub durable: u64,
    pub faults: u64,
}

/// What a pass knows. No value of it is made.
pub struct View {
    /// Whether it is the keeper's, which knows the whole story. Only its steps go on with it.
    pub keeps: bool,
    pub story: Story,
    /// The marks as it last saw them.
    pub end: u64,
    pub durable: u64,
    pub faults: u64,
    /// How many of these faults are its own.
    pub met: u64,
    /// Its records.
    pub pieces: LinkedList<Piece>,
    /// Its share in the passes of the log, and how many shares it knows to be lost. Where none is lost, a view without a share has no
    /// record.
    pub share: u64,
    pub lost: u64,
}

/// The end, the durable mark and the count of faults.
pub type Cell = RuledSeqCell<[u64; 3], View, Law, 3>;

/// A view of the marks.
pub type Seat = Pass<[u64; 3], View>;

/// The rule of the marks.
pub struct Law;

impl Protocol<[u64; 3], View> for Law {
    ghost use Rattle.redo_log.specs.Marks.{Kept, first_view};

    ghost holds = { Kept };

    ghost first = { first_view };
}

/// A look at the marks.
pub(crate) struct Look;

impl Outcome<[u64; 3], View> for Look {
    ghost use Rattle.redo_log.specs.Marks.{Looks};

    ghost then = { Looks };
}

/// The keeper opens a log.
pub(crate) struct Open;

impl Outcome<[u64; 3], View> for Open {
    ghost use Rattle.redo_log.specs.Marks.{Opens};

    ghost then = { Opens };
}

/// The record that the keeper appends.
pub(crate) trait Appended {
    ghost use Rattle.redo_log.specs.declared.view.Piece.{Piece};

    ghost piece: { Piece };
}

impl Appended for Brand {
    ghost use Rattle.std.specs.Prelude.{[]};
    ghost use Rattle.redo_log.specs.Story.{piece_at};

    ghost piece = { piece_at 0 [] };
}

/// The keeper appends a record.
pub(crate) struct Append<E> {
    of: PhantomData<E>,
}

impl<E: Appended> Outcome<[u64; 3], View> for Append<E> {
    ghost use Rattle.redo_log.specs.Marks.{AppendsPiece};

    ghost then = { AppendsPiece E.piece };
}

/// The keeper raises the durable mark and the count of faults.
pub(crate) struct Mark;

impl Outcome<[u64; 3], View> for Mark {
    ghost use Rattle.redo_log.specs.Marks.{Rises};

    ghost then = { Rises };
}

/// A view with the same marks and no share, and a view that takes in another.
pub(crate) struct Passes;

impl Split<View> for Passes {
    ghost use Rattle.redo_log.specs.Marks.{again};

    ghost left = { λ v. v };

    ghost right = { again };
}

impl Join<View> for Passes {
    ghost use Rattle.redo_log.specs.Marks.{joined, blank};

    ghost both = { joined };

    ghost spent = { blank };
}

/// Another pass with the same marks and a share of its own.
pub(crate) struct Shares;

impl Split<View> for Shares {
    ghost use Rattle.redo_log.specs.Marks.{less, shared};

    ghost left = { less };

    ghost right = { shared };
}

/// All that a pass knows goes to a new one, which may be joined.
pub(crate) struct Whole;

impl Split<View> for Whole {
    ghost use Rattle.redo_log.specs.Marks.{blank};

    ghost left = { λ v. blank };

    ghost right = { λ v. v };
}

/// The keeper's part goes from one pass to another.
pub(crate) struct Keeper;

impl Split<View> for Keeper {
    ghost use Rattle.redo_log.specs.Marks.{left, keeper_of};

    ghost left = { left };

    ghost right = { keeper_of };
}

impl Join<View> for Keeper {
    ghost use Rattle.redo_log.specs.Marks.{taken, blank};

    ghost both = { taken };

    ghost spent = { blank };
}
