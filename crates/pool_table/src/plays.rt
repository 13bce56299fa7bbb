//! What each step tells its seat. The entry, receipt and frames of a step enter by a type parameter, and each call
//! picks them.
ghost use Rattle.std.specs.Prelude.{ℕ};
ghost use Rattle.trail.specs.declared.event.Entry.{Entry};
ghost use Rattle.trail.specs.declared.event.Receipt.{Receipt};
ghost use Rattle.frame_words.specs.Plain.{Plain};
ghost use Rattle.redo_log.specs.Passes.{Known};
ghost use Rattle.pool_table.specs.Seen.{DeskSeen};
ghost use Rattle.pool_table.specs.Told.{no_desk, no_entry, no_frames, no_known, no_receipt, tells_append, tells_give, tells_look, tells_note, tells_note_in_turn, tells_take};
ghost use Rattle.pool_table.specs.Views.{joined, made_pass, maker_after, nobody};

use crate::view::{Lodger, Slot, View};
use atomic_table::{Join, Play, Split};
use std::marker::{Brand, PhantomData};

/// The entry that a step appends.
pub trait Appended {
    ghost entry: { Entry };
}

impl Appended for Brand {
    ghost entry = { no_entry };
}

/// The receipt that a step leaves. Where the step finds its place, that of this one counts for nothing.
pub trait Noted {
    ghost receipt: { Receipt };
}

impl Noted for Brand {
    ghost receipt = { no_receipt };
}

/// The desk's frames behind a step, what the caller's pass of the log knows then, and the place before the history.
pub trait Shown {
    ghost frames: { Plain };

    ghost known: { Known };

    ghost first: { ℕ };
}

impl Shown for Brand {
    ghost frames = { no_frames };

    ghost known = { no_known };

    ghost first = { 0 };
}

/// A store of the mark.
pub struct Append<E> {
    of: PhantomData<E>,
}

impl<D: Lodger, E: Appended + Shown> Play<Slot<D>, View> for Append<E> {
    ghost then = { tells_append E.entry E.frames E.known };
}

/// A load of the mark that leaves a receipt, by the pass that has the turn.
pub struct NoteInTurn<E> {
    of: PhantomData<E>,
}

impl<D: Lodger, E: Noted + Shown> Play<Slot<D>, View> for NoteInTurn<E> {
    ghost then = { tells_note_in_turn E.receipt E.frames E.known };
}

/// A load of the mark that leaves a receipt at the place which is found there.
pub struct Note<E> {
    of: PhantomData<E>,
}

impl<D: Lodger, E: Noted + Shown> Play<Slot<D>, View> for Note<E> {
    ghost then = { tells_note E.receipt E.first };
}

/// A load of the mark.
pub struct Look<E> {
    of: PhantomData<E>,
}

impl<D: Lodger, E: Shown> Play<Slot<D>, View> for Look<E> {
    ghost then = { tells_look E.first };
}

/// What a table's desk was when the table was made.
pub trait Started {
    ghost start: { DeskSeen };
}

impl Started for Brand {
    ghost start = { no_desk };
}

/// A compare and exchange of the turn, which takes the desk.
pub struct Take<E> {
    of: PhantomData<E>,
}

impl<D: Lodger, E: Started> Play<Slot<D>, View> for Take<E> {
    ghost then = { tells_take D.seen E.start };
}

/// A store of the turn, which gives the desk back.
pub struct Give;

impl<D: Lodger> Play<Slot<D>, View> for Give {
    ghost then = { tells_give };
}

/// A pass comes from the first view, and a pass takes in another.
pub struct Passes;

impl Split<View> for Passes {
    ghost left = { maker_after };

    ghost right = { made_pass };
}

impl Join<View> for Passes {
    ghost both = { joined };

    ghost spent = { nobody };
}
