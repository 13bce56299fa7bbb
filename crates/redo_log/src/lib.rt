//! The redo log for several passes: records that any of them appends, and how far they are durable.
//!
//! The log's marks (its end, its durable mark, its device's count of faults) are a cell of words that each pass may look at at any time.
//! The log itself, with its device and the records that aren't durable (`redo_mark`), lies under a lock whose key names that cell
//! (`keyed_lock`); beside it lies the one view of the cell that knows the whole log, and that a pass takes on for its turn.
//!
//! The layers above use one contract: the log is one list of bytes that only grows, and a pass knows a part of it. The marks that it saw
//! never fall (`GoesOn`); the records that it appended stand at their starts for ever, and at the end the device keeps each of them that
//! ends by the durable mark. A `Covered`, which `cover` alone makes, is of one log; a pass that takes it in knows that mark. Others append
//! between: so contracts say *later* and *at this LSN*, and never that the log is as before.
#![tactic(auto)]

mod passes;
mod redo;
mod steps;
mod tail;
mod turns;
mod view;

pub use passes::{Covered, Marks, RedoPass};
pub use redo::{Redo, StartCause, StartErr};
pub use tail::{Home, Tail};
pub use view::{Cell, Law, Piece, SHARES, Seat, Story, View};
