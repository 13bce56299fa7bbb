//! The rule of a pool's table, and what each of its steps does.
//!
//! A table has two words, the mark of the history and the turn, and one slot, in which the desk lies between turns.
//! Each pass has a seat with a view: what it knows. The rule (`Kept`) says how words, slot and views stand to one
//! history and its callers' accounts; for each kind of step a lemma says that it keeps the rule, and which view the
//! seat then has. Knows the desk by what it tells (`DeskSeen`) alone.
#![tactic(auto)]

mod ledger;
mod plays;
mod view;

pub use ledger::{Accounts, Mark, Share, TURN_FREE};
pub use plays::{
    Append, Appended, Give, Look, Note, NoteInTurn, Noted, Passes, Shown, Started, Take,
};
pub use view::{Account, Key, Law, Lodger, PARTS, Slot, View};
