//! The LRU list of one instance, with midpoint insertion: which frames hold the pages that were used last.
//!
//! A frame whose page is read in is put in at the midpoint, at the head of the old sublist. A touch moves it to the head of the list
//! by the rules of `page_ids`, which are over keys of any kind: here the keys are frames. Each call is one of these rules.
//! The list is linked by index; where its old sublist begins is kept and moved by neighbours. Knows nothing of pages, devices or
//! histories.
#![tactic(auto)]

pub mod lru;
mod sublists;

pub use lru::{Lru, Touch};
