//! The tests of the crates beside and below the desk: texts and formats, worked examples, and the calls that take memory.
//!
//! Has nothing but tests, one file a crate: `pages` and `configs` for page_ids, `chains` for link_lists, `old_and_young` for midpoint_lru,
//! `dirty_frames` for flush_list, `free_frames` for frame_book, `homes` for page_hash, `watching` for watches, `dumps` for dump_load,
//! `texts` for trail, `frames` for frame_words, `scripts` for script_text. What a clause pins is not tested here. page_disk has no
//! file: run_rows makes each call of its forms in memory.
#![tactic(auto)]

#[cfg(test)]
mod chains;
#[cfg(test)]
mod configs;
#[cfg(test)]
mod dirty_frames;
#[cfg(test)]
mod dumps;
#[cfg(test)]
mod frames;
#[cfg(test)]
mod free_frames;
#[cfg(test)]
mod homes;
#[cfg(test)]
mod old_and_young;
#[cfg(test)]
mod pages;
#[cfg(test)]
mod scripts;
#[cfg(test)]
mod telling;
#[cfg(test)]
mod texts;
#[cfg(test)]
mod watching;
