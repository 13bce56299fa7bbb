//! The desk of one instance: its history, the frames with their pages, and the disk behind them.
//!
//! All that happens to an instance happens here, one call after another. Each call appends exactly the entries that the rules name.
//! That the map of homes, the free frames, the LRU list and the dirty pages are those that the history gives is the invariant of
//! `InstanceLists`: the layer above sees a history and a disk, and no list. The log and the frames are handed in. How frames stand to a desk
//! between calls is one fact with a name, `AreTied`; what stands on the disk and in the frames behind a history is another one,
//! `IsBehind`. Each call keeps both. Knows nothing of threads, scripts or texts.
#![tactic(auto)]

pub mod calls;
pub mod checks;
pub mod cleans;
pub mod creates;
pub mod desk;
pub mod fixes;
pub mod flush;
pub mod parts;
pub mod puts;
pub mod victims;

pub use calls::{CallErr, Caller, CleanErr, Cleaned, CreateErr, FixErr, Granted, PutDone, PutErr};
pub use desk::{Desk, clean_disk_holds_the_values, dirty_pages_are_few};
