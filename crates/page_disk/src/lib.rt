//! The outside: where a script comes from and text goes to, the disks of pages, and the shelf that hands out disks and the log's device.
//!
//! Each of these is a trait with a written meaning: a count of faults that never falls, and what the device holds, which a form may tell or not.
//! The forms in memory tell all; adapters over real files tell no content. Knows of the log its device and what a `Covered` shows;
//! knows nothing of frames, histories or the log's records.
//! The layers above use one contract: a told page is what a read gives, only a write changes a page, its own, and only where the log is
//! durable up to the page's LSN; and a call fails only where the count rose.
#![tactic(auto)]

pub mod asked;
pub mod calls;
pub mod disk;
pub mod disk_memory;
pub mod memory_shelf;
pub mod shelf;
pub mod sink_memory;
pub mod source_memory;
pub mod stream;

pub use asked::Asked;
pub use calls::FaultCount;
pub use disk::PageDisk;
pub use disk_memory::DiskMemory;
pub use memory_shelf::MemoryShelf;
pub use shelf::{FaultAt, Shelf};
pub use sink_memory::SinkMemory;
pub use source_memory::SourceMemory;
pub use stream::{Sink, Source};
