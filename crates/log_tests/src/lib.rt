//! The tests of the redo log and of the lock under it.
//!
//! Has nothing but tests. `records` has the bytes of records, made by hand; `passes` has several passes of one log, a device that fails at
//! each of its calls, and what is refused. What a clause pins is not tested here.
#![tactic(auto)]

#[cfg(test)]
mod changes;
#[cfg(test)]
mod passes;
#[cfg(test)]
mod records;
