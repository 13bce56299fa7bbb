//! The frames of one instance's chunks: which are free, which are withdrawn, and how the pool grows and shrinks.
//!
//! A chunk is a run of frames with rising numbers. A frame that is there is on the free list, on the withdraw list, or in
//! use. A pool grows by a chunk at its end. It shrinks in steps: an area is opened, which is all frames of the chunks from
//! one upwards; what is free there, and what is given back there later, goes to the withdraw list; and when all of the area
//! stands there, its chunks are given up. Or the withdrawal is undone. The lists are linked by index.
//! Knows nothing of pages, devices or histories.
#![tactic(auto)]

pub mod book;
mod moves;

pub use book::{Book, BookErr};
