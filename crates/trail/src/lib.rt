//! What happened in an instance: the entries of its history, the receipts of its passes, the trail of both, and the trail's text.
//!
//! Holds the definitions that every layer above speaks of: what a history says of a page or a frame, what a trail says of a caller,
//! and which trails are lawful. Knows nothing of frames' memory, devices or threads. The layers above use one contract:
//! the text of a trail is the function of its events, and a merged trail is the history with each receipt behind the entry of its place.
#![tactic(auto)]

pub mod event;
pub mod laws;
pub mod merging;
pub mod spelling;

pub use event::{Call, Cause, Dirty, Entry, Event, Hand, Held, Kind, Note, Receipt, Trail};
pub use laws::{
    a_clean_history_is_durable, clean_pages_are_saved, dirty_pages_are_apart, dirty_pages_rise,
};
pub use merging::{merge, one_trail_is_merged};
pub use spelling::{text, text_tells_the_trail};
