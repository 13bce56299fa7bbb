//! The watches of one instance: who waits for which page, and whether it has come since.
//!
//! A watch belongs to one caller and one page. It is set for a page that isn't in the pool, and has occurred once the page
//! was read in or created; it stands until its caller takes it back. There is room for 33 watches, taken at the start. They
//! stand in a plain vector in the order in which they were set. Knows nothing of frames, callers' rights or histories.
#![tactic(auto)]

pub mod list;

pub use list::{NoWatch, WatchFull, Watched, Watches};
