//! A lock whose value fits a key, and contracts see the key.
//!
//! A mutex says of its value only what is true of every value of the type. Here the key is chosen with the lock and stays: what is taken
//! from the lock fits its key, and what is given back has to. So one value may be tied to another that stands beside the lock.
//!
//! The value is out while a `Loan` stands. A loan borrows its lock, and ends with `give`, or else the value stays out for good.
#![tactic(auto)]

mod lock;

pub use lock::{Guard, Keyed, Loan, Lock};
