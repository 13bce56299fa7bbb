//! A history stays lawful, whatever callers make the calls.
//!
//! Holds definitions and lemmas, and no functions. What stands of a history and of its callers' own events is one record
//! (`IsLawfulSoFar`); a lemma for each kind of entry and note says what keeps it, one for each cause what makes a refusal lawful,
//! and at the end the trail that is merged from all of them is lawful. Knows nothing of frames' memory, devices or threads.
#![tactic(auto)]
