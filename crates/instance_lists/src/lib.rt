//! The lists of one instance over its history: homes, free frames, the LRU list, dirty pages.
//!
//! They are what buf0buf keeps in `buf_pool_t` beside the frames: the page hash, the free list, the LRU list and the flush list.
//! Here they have one owner, which keeps the history too, and one way to change: an entry comes. That each list is then its look-up
//! of the history is the invariant of `InstanceLists`, which nobody above sees. So the layers above use one contract: `append` puts
//! an entry in front of the history, and each question about a list is answered as the history says.
//! Knows nothing of what frames hold, of devices, callers or threads.
#![tactic(auto)]

pub mod lists;
pub mod parts;
pub mod steps;

pub use lists::InstanceLists;
