//! Short histories that the laws of a trail take, and such that they refuse.
//!
//! There are no functions here: proofs/ holds rows, each a trail in the order of its text, under a line that says what it shows.
//! Each event of a row is lawful where it comes (`Good`), or all of them are a whole trail (`Whole`); or they are lawful up to the
//! last one, which breaks the law that its proof names (`Breaks`); or each is, and they are no whole trail (`Unfinished`).
//! A row is proved by computing, so a law that loses a case, or gets one too many, is refused here. proofs/Shared.antt has the words.
#![tactic(auto)]
