//! The desk's public calls over devices in memory and the frames of one thread, each at least once.
//!
//! Has nothing but tests. The scripts of run_rows make the same calls with every refusal.
#![tactic(auto)]

#[cfg(test)]
mod tests;
#[cfg(test)]
mod trial;
