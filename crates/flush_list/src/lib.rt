//! The flush list of one instance: which frames hold dirty pages, by the oldest LSN of each.
//!
//! A frame whose page becomes dirty is put in at the head, with the LSN at which its first change that isn't on the disk
//! starts. It keeps its place and that LSN until its page is written. So the oldest LSNs don't rise from the head to the
//! tail, and the tail's is where a redo would have to begin. The list is linked by index.
//! Knows nothing of pages, devices, the log or histories.
#![tactic(auto)]

pub mod flush;

pub use flush::Flush;
