//! The redo log: records of changes, how far they are durable, and the device on which they stand.
//!
//! A record is made of a change (`Draft::of`), gets its place at the log's end (`Redo::append`), and is durable once a device's
//! sync has succeeded behind its write (`Redo::cover`). The crate knows page ids, and nothing of pages, pools or histories.
//!
//! The layers above use one contract of it: a record stands where `append` says, in a log that only grows (`Holds`, `IsLater`),
//! and a `Covered`, which `cover` alone makes, is a durable mark: the device keeps every byte of that log below it.
#![tactic(auto)]

pub mod calls;
pub mod device;
pub mod log;
pub mod memory;
pub mod reading;
pub mod record;
pub mod redo;

pub use calls::Calls;
pub use device::RedoDisk;
pub use log::Log;
pub use memory::RedoMemory;
pub use reading::{ChangeErr, read_change, records_are_whole};
pub use record::{Change, ChangeKind, Draft, Span};
pub use redo::{CoverErr, Covered, LogSpent, Redo, RedoEnd};
