//! Numbers that several rules share.

/// The most fixes that a pass may hold in an instance.
pub const MOST_FIXES: u32 = 64;

/// The most frames that an instance may have, in all chunks that it may have.
pub const MOST_FRAMES: u64 = 16_384;

/// The most bytes that all frames of a pool may have: 2^31.
pub const MOST_BYTES: u64 = 2_147_483_648;

/// The most watches that may stand in an instance.
pub const MOST_WATCHES: u32 = 33;

/// The bytes that a log record has beside those of its change.
pub const RECORD_BYTES: u64 = 21;

/// The bits of a frame's word that count its fixes.
pub const FIX_BITS: u32 = 14;

/// The bit that latches the frame.
pub const LATCH_BIT: u32 = 14;

/// The bit that says that a page is resident in it.
pub const RESIDENT_BIT: u32 = 15;

/// The lowest bit of its modify clock.
pub const CLOCK_BIT: u32 = 16;

/// How many bits the modify clock has.
pub const CLOCK_BITS: u32 = 48;

/// The last place that the closing flush may take: 2^48 - 1. A place is a modify clock, which has 48 bits of a frame's word.
pub const LAST_PLACE: u64 = 281_474_976_710_655;

/// The last place that any other call may take: 2^48 - 32769. The closing flush of 16,384 pages fits behind it, and so does the end of a resize that is given up.
pub const LIMIT: u64 = 281_474_976_677_887;

/// The log's last end: 2^63.
pub const LAST_LSN: u64 = 9_223_372_036_854_775_808;

/// The places that a fix needs: a write, an evict, a load and its answer.
pub const FIX_NEED: u64 = 4;

/// The places that a create needs: a write, an evict and its answer.
pub const CREATE_NEED: u64 = 3;

/// The places that a call needs which leaves its answer alone.
pub const ANSWER_NEED: u64 = 1;

/// The places that a resize to more chunks needs.
pub const GROWTH_NEED: u64 = 2;

/// The places that a round of a resize to fewer chunks needs for each frame of the area: a write, an evict and a move.
pub const FRAME_NEED: u64 = 3;

/// The places that such a round needs beside those of its frames: what begins it, what ends it, and its answer.
pub const ROUND_NEED: u64 = 3;
