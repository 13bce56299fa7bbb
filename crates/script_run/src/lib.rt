//! Runs a script: one desk, a worker that makes the thread's calls, the closing flush, and the text of the trail.
//!
//! Holds the headline, as clauses of [`run`]: what is printed is one lawful history of a plain page map, with each thread's calls once, in order.
//! Knows nothing of files or streams but the traits of the outside.
#![tactic(auto)]

pub mod creates;
pub mod ends;
pub mod no_device;
pub mod outcome;
pub mod pass;
pub mod runner;
pub mod scans;
pub mod worker;

pub use no_device::plain;
pub use outcome::Outcome;
pub use runner::run;
