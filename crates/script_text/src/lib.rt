//! The text of a script and the words of the command line, each read by a grammar that is exact both ways.
//!
//! A script is lines: settings, then a thread with its commands. The crate keeps nothing and knows nothing of a pool, a page's bytes or a
//! device. A line is spelled in one way only (specs/Text), what it makes of the lines before it is one `step` (specs/Grammar), and what
//! is asked of the whole stands in specs/Faults.
//!
//! The layers above use two contracts: `read_script` answers what the bytes ask for, or the first line that isn't in the grammar
//! (specs/Verdict), and what it answers keeps every limit (specs/Within); `print_script` prints a script's values (specs/Printed), and
//! what it prints reads back as the same script.
#![tactic(auto)]

mod command_line;
mod draft;
mod lines;
pub mod printer;
pub mod program;
pub mod reader;
pub mod script;
mod words;

pub use command_line::command_of;
pub use printer::{a_printed_script_reads_back, print_script};
pub use program::{Name, Program, WordsErr};
pub use reader::{ScriptErr, read_script};
pub use script::{Command, Script};
