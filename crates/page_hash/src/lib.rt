//! The page hash of one instance: which frame holds a page.
//!
//! A page falls into one of the cells by its id, and each cell is a chain of the frames whose pages fall there. So a page
//! is found by looking at the frames of one cell, and it is put in, taken out or moved to another frame without a search
//! in any other. The cells are chains over one vector of nodes, a node for each frame; who stands where no contract tells.
//! Only `new` and `resize` take memory. Knows nothing of what frames hold, devices or histories.
#![tactic(auto)]

mod cells;
pub mod hash;

pub use hash::PageHash;
