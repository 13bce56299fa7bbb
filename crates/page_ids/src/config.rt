//! The numbers that a pool is made with, and what they may be.
ghost use Rattle.std.specs.Prelude.{◌≡◌, ◌+◌, ◌-◌, ◌*◌, ◌/◌, ◌<◌, ◌≤◌, ◌^◌, ℕ, None, Some, IfOk, MatchResult};
ghost use Rattle.page_ids.specs.Size.{page_bytes};
ghost use Rattle.page_ids.specs.Chunks.{unit_of, chunks_of};
ghost use Rattle.page_ids.specs.Fields.{rounded, is_settable, setting_of, has_room, is_fit, unfit_of, IsFit};

use crate::ids::PageSize;
use crate::limits::{LIMIT, MOST_BYTES, MOST_FRAMES};

/// The numbers of a pool, as a script sets them.
///
/// The pool is divided into instances, and each instance's frames into chunks of one size
/// (InnoDB's `innodb_buffer_pool_instances` and `innodb_buffer_pool_chunk_size`).
#[derive(Clone, Copy, Debug, PartialEq, Eq)]
pub struct Config {
    /// Bytes of a page: 4096, 8192 or 16384 (`innodb_page_size`).
    pub page: PageSize,
    /// Instances, 1 to 16.
    pub instances: u16,
    /// Frames of a chunk of one instance, 1 to 8192.
    pub frames: u32,
    /// Bytes of the whole pool at the start, 1 to 2^31; rounded up to whole chunks in every instance (`innodb_buffer_pool_size`).
    pub size: u64,
    /// The greatest number of chunks that an instance may have, 1 to 16.
    pub max: u32,
    /// The old sublist's share of the LRU list in percent, 5 to 95 (`innodb_old_blocks_pct`).
    pub old_pct: u32,
    /// Milliseconds that a page stays old after its first access, below 2^32 (`innodb_old_blocks_time`).
    pub old_time: u64,
    /// Pages below which an LRU list has no old sublist, 1 to 16384 (buf0lru's `BUF_LRU_OLD_MIN_LEN`).
    pub old_min: u32,
    /// The log sequence number of the log file's first byte, 1 to 2^63 - 1.
    pub lsn: u64,
    /// The place before the first entry of each instance's history, 0 to 2^48 - 32769.
    pub first: u64,
}

/// A number of a pool.
#[derive(Clone, Copy, Debug, PartialEq, Eq)]
pub enum Field {
    Page,
    Instances,
    Frames,
    Size,
    Max,
    OldPct,
    OldTime,
    OldMin,
    Lsn,
    First,
}

/// All numbers of a pool, in the order in which a script's settings are printed.
pub const FIELDS: [Field; 10] = [
    Field::Page,
    Field::Instances,
    Field::Frames,
    Field::Size,
    Field::Max,
    Field::OldPct,
    Field::OldTime,
    Field::OldMin,
    Field::Lsn,
    Field::First,
];

/// All numbers of a pool, in the order in which they are judged.
const JUDGED: [Field; 10] = [
    Field::Page,
    Field::Instances,
    Field::Frames,
    Field::Max,
    Field::Size,
    Field::OldPct,
    Field::OldTime,
    Field::OldMin,
    Field::Lsn,
    Field::First,
];

/// A number of a pool that can't be made with it.
#[derive(Clone, Copy, Debug, PartialEq, Eq)]
pub struct BadConfig {
    pub field: Field,
    pub value: u64,
}

impl Field {
    /// Whether the number is in the field's range.
    pub fn is_settable(self, n: u64) -> bool
        ensures { result ≡ is_settable self n }
    {
        match self {
            Field::Page => n == 4096 || n == 8192 || n == 16384,
            Field::Instances => 1 <= n && n <= 16,
            Field::Frames => 1 <= n && n <= 8192,
            Field::Size => 1 <= n && n <= MOST_BYTES,
            Field::Max => 1 <= n && n <= 16,
            Field::OldPct => 5 <= n && n <= 95,
            Field::OldTime => n <= 0xffff_ffff,
            Field::OldMin => 1 <= n && n <= 16384,
            Field::Lsn => 1 <= n && n <= 0x7fff_ffff_ffff_ffff,
            Field::First => n <= LIMIT,
        }
    }
}

/// The least multiple of `unit` that is at least `bytes`.
pub fn rounded(bytes: u64, unit: u64) -> u64
    requires unit { 1 ≤ unit }
    requires fits { bytes + unit ≤ 2 ^ 64 }
    ensures rounded { result ≡ rounded bytes unit }
    ensures enough { bytes ≤ result }
    ensures least { (n : ℕ) → bytes ≤ n * unit → result ≤ n * unit }
{
    (bytes + (unit - 1)) / unit * unit
}

impl Config {
    /// The number that the field has.
    pub fn setting(&self, field: Field) -> u64
        ensures { result ≡ setting_of self.now field }
    {
        match field {
            Field::Page => u64::from(self.page.bytes()),
            Field::Instances => u64::from(self.instances),
            Field::Frames => u64::from(self.frames),
            Field::Size => self.size,
            Field::Max => u64::from(self.max),
            Field::OldPct => u64::from(self.old_pct),
            Field::OldTime => self.old_time,
            Field::OldMin => u64::from(self.old_min),
            Field::Lsn => self.lsn,
            Field::First => self.first,
        }
    }

    /// The bytes of one chunk in every instance: the unit in which the pool's size is counted.
    pub fn unit(&self) -> u64
        ensures unit { result ≡ unit_of self.now }
        ensures large { result < 2 ^ 62 }
    {
        let bytes = u64::from(self.page.bytes());
        bytes * u64::from(self.frames) * u64::from(self.instances)
    }

    /// The chunks of an instance at the start: the pool's size in units, rounded up; none where a chunk has no bytes.
    fn chunks(&self) -> u64
        requires size { self.now.size ≤ MOST_BYTES }
        ensures { result ≡ chunks_of self.now }
    {
        let unit = self.unit();
        if unit == 0 {
            return 0;
        }
        rounded(self.size, unit) / unit
    }

    /// Whether there is room for the greatest number of chunks.
    fn has_room(&self) -> bool
        ensures { result ≡ has_room self.now }
    {
        let frames = u64::from(self.frames) * u64::from(self.max);
        frames <= MOST_FRAMES
            && u64::from(self.page.bytes()) * frames * u64::from(self.instances) <= MOST_BYTES
    }

    /// Whether the field is in its range, and agrees with those that are judged before it.
    fn is_fit(&self, field: Field) -> bool
        ensures { result ≡ is_fit self.now field }
    {
        let settable = field.is_settable(self.setting(field));
        match field {
            Field::Max => settable && self.has_room(),
            Field::Size => settable && self.chunks() <= u64::from(self.max),
            _ => settable,
        }
    }

    /// The chunks of an instance at the start, where a pool can be made with these numbers; else the first number that is judged to be wrong.
    ///
    /// Page, instances and frames are judged first; then the greatest number of chunks, which leaves an instance at most 16384 frames and the
    /// pool at most 2^31 bytes; then the size, whose chunks are no more than these; then the others.
    pub fn check(&self) -> Result<u32, BadConfig>
        ensures exact { MatchResult result (λ chunks. unfit_of self.now ≡ None) (λ bad. unfit_of self.now ≡ Some bad) }
        ensures chunks { IfOk result (λ chunks. (chunks ≡ chunks_of self.now) × IsFit self.now) }
    {
        for field in &JUDGED {
            if !self.is_fit(*field) {
                return Err(BadConfig {
                    field: *field,
                    value: self.setting(*field),
                });
            }
        }
        Ok(self.chunks() as u32)
    }
}
