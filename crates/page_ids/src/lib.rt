//! Page ids, page sizes, images and the layout of a page on disk, the word of a frame, and the numbers a pool is made with.
//!
//! The lowest crate: it holds the plain types that every other crate speaks of, and knows nothing of a pool, a history or a device.
//! The layers above use one contract of it: the relation between the bytes of a page and its image, which `decode` and `encode`
//! establish in either direction. Each of the two tells the other.
#![tactic(auto)]

pub mod config;
pub mod faults;
pub mod frame_word;
pub mod ids;
pub mod image;
pub mod layout;
pub mod limits;
pub mod lists;
pub mod numerals;
pub mod writing;

pub use config::{BadConfig, Config, Field, rounded};
pub use faults::{Failed, OutOfMemory};
pub use frame_word::{Word, a_step_leaves_a_packed_word, a_word_is_its_fields};
pub use ids::{PageId, PageSize};
pub use image::Image;
pub use layout::{BadPage, decode};
pub use limits::{
    ANSWER_NEED, CLOCK_BIT, CLOCK_BITS, CREATE_NEED, FIX_BITS, FIX_NEED, FRAME_NEED, GROWTH_NEED,
    LAST_LSN, LAST_PLACE, LATCH_BIT, LIMIT, MOST_BYTES, MOST_FIXES, MOST_FRAMES, MOST_WATCHES,
    RECORD_BYTES, RESIDENT_BIT, ROUND_NEED,
};
pub use lists::{Bytes, Ids, Words};
pub use writing::{a_page_has_one_image, an_image_has_one_page, encode};
