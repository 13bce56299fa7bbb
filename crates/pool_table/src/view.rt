//! What a seat knows, what lies in a slot, and the rule.
use atomic_table::TableRule;
use frame_words::PlainFrames;
use page_ids::{Image, Word};
use redo_log::RedoPass;
use std::collections::LinkedList;
use std::marker::PhantomData;
use std::snapshot::Snapshot;
use trail::{Entry, Event};

/// The parts of the right to make passes: a pass has one.
pub const PARTS: u32 = 64;

/// What a pass did. No value of it is made.
pub struct Account {
    pub number: u32,
    /// Its entries and receipts, the newest first.
    pub mine: LinkedList<Event>,
    /// What its pass of the log knew.
    pub redo: Option<RedoPass>,
}

/// What a seat knows. No value of it is made.
pub struct View {
    /// Its parts of the right to make passes.
    pub parts: u32,
    /// Whether it makes passes. Its number is then the next one.
    pub makes: bool,
    /// Whether it has a pass's number.
    pub passes: bool,
    pub number: u32,
    /// Whether it has the turn.
    pub turn: bool,
    /// The history, as far as it was seen, the newest entry first.
    pub seen: LinkedList<Entry>,
    /// Its own entries and receipts, the newest first. They say which of its fixes are open.
    pub mine: LinkedList<Event>,
    /// The accounts of the passes that it took in.
    pub others: LinkedList<Account>,
    /// With the turn: the desk's frames as they were last shown.
    pub frames: Option<PlainFrames>,
    /// What its pass of the log knows, from its first step on.
    pub redo: Option<RedoPass>,
    /// The words that the call under way found, each with its frame.
    pub found: LinkedList<(u32, Word)>,
    /// The numbers that changed a frame's word through this view.
    pub numbers: LinkedList<u32>,
    /// The frames that it visits, and those that it has latched.
    pub visits: LinkedList<u32>,
    pub latches: LinkedList<u32>,
    /// The images that it lifted, and those of frames that it claimed or hasn't published.
    pub lifted: LinkedList<(u32, Image)>,
    pub claimed: LinkedList<(u32, Image)>,
    pub unpublished: LinkedList<(u32, Image)>,
}

/// Who lies in a table's slot between turns.
pub trait Lodger: Send + Drop {
    ghost use Rattle.pool_table.specs.Seen.{DeskSeen};

    ghost seen: { Self → DeskSeen };
}

/// What a slot holds.
pub enum Slot<D> {
    Nothing,
    Desk(D),
    Image(Image),
}

/// What a table is told when it is made: its desk as it was then.
pub struct Key<D> {
    pub desk: Snapshot<D>,
}

/// The rule of a table.
pub struct Law<D> {
    of: PhantomData<D>,
}

impl<D: Lodger> TableRule<Slot<D>, View, Key<D>> for Law<D> {
    ghost use Rattle.pool_table.specs.Kept.{Kept};
    ghost use Rattle.pool_table.specs.Views.{first_view};

    ghost holds = { λ key. Kept D.seen (D.seen key.desk.value) };

    ghost first = { λ key. first_view };
}
