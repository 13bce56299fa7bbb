//! Dumps of a buffer pool: which pages it held, as a text, and which pages are to be loaded again.
//!
//! A dump has a line for each page, the one at the head of the LRU list first: its space and its number with a comma between
//! them (buf0dump's form). Reading it is exact both ways: what is printed reads back, and what is read is spelled so. Loading
//! takes the pages in rising order, each once. Knows nothing of a pool, of files or of what a page holds.
#![tactic(auto)]

pub mod loads;
pub mod text;

pub use loads::to_load;
pub use text::{DumpErr, MOST_IDS, a_dump_reads_back, dump_text, read_dump};
