//! Intrusive lists by index: nodes with link pairs, and the chains that are linked through them.
//!
//! A node is a number. One vector of nodes has several link pairs for each, so a node can stand in several chains at
//! once, one for each pair. A chain keeps its two ends; who stands beside a node is told by the node. So a node is put
//! in, taken out or replaced without a search and without memory. The crate knows nothing of what the nodes stand for.
//!
//! The layers above use one contract of it: a chain is a list of nodes (`IsChain`), each call changes that list in the
//! plain way, and every other chain keeps its own (`Keeps`). Who needs one list over its nodes alone takes an `IndexList`,
//! whose contracts see the plain list.
#![tactic(auto)]

pub mod chain;
pub mod index_list;
pub mod laws;
pub mod nodes;

pub use chain::Chain;
pub use index_list::IndexList;
pub use laws::a_chain_is_one_list;
pub use nodes::{Nodes, OutOfMemory};
