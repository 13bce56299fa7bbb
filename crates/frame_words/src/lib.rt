//! What a desk may do to frames, for one thread and for the holder of a turn.
//!
//! Keeps, in the form for one thread, each frame's fixes, latch, residence, clock, page and image. Knows of a history what an entry says to
//! a frame, and nothing of lists, devices or threads.
//! The layers above use one contract: `Frames`, each of whose calls has one equation on what its holder sees.
#![tactic(auto)]

pub mod frame;
pub mod frames;
pub mod plain_frames;

pub use frames::Frames;
pub use plain_frames::PlainFrames;
