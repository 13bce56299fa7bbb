//! Records are read back.
ghost use Rattle.std.specs.Prelude.{◌≡◌, ◌≤◌, ◌<◌, ◌+◌, ◌^◌, ◌⊎◌, ◌↔◌, ℕ, List, All, length, IfOk, IfErr, Err, MatchResult};
ghost use Rattle.page_ids.specs.Layout.{u32_at, u64_at};
ghost use Rattle.page_ids.specs.declared.limits.TheConstants.{LAST_LSN, RECORD_BYTES};
ghost use Rattle.redo_mark.specs.Records.{FitsRecord, record_of};
ghost use Rattle.redo_mark.specs.Reading.{u16_at, IsRecord, IsNoRecord, HasEnd, BeginsWith};
ghost use Rattle.redo_mark.specs.declared.record.Change.{Change};
ghost use Rattle.redo_mark.specs.declared.reading.ChangeErr.{ChangeErr};

use crate::record::{Change, ChangeKind, Span};
use page_ids::{Bytes, OutOfMemory, PageId};
use std::alloc::{AllocError, Global};

/// Why no record stands at the front of bytes: the first of these that is so, with what was found.
#[derive(Clone, Copy, Debug, PartialEq, Eq)]
pub enum ChangeErr {
    /// There was no memory for the change's bytes.
    OutOfMemory,
    /// So many bytes are there, and the record needs more: 13 up to its count, and then as many as the count says.
    Short { need: u64, have: u64 },
    /// The first byte is no kind of a change.
    Kind { found: u8 },
    /// Another end LSN stands at the record's end than that of a record that starts at this LSN.
    Lsn { found: u64, want: u64 },
}

impl From<AllocError> for ChangeErr {
    ghost use Rattle.redo_mark.specs.declared.reading.ChangeErr.TheVariants.{OutOfMemory};

    ghost from_gives = { λ _ e. e ≡ OutOfMemory };

    fn from(_error: AllocError) -> ChangeErr {
        ChangeErr::OutOfMemory
    }
}

/// The number in two bytes.
fn read_u16(bytes: &[u8], at: usize) -> u16
    requires { at + 2 ≤ length bytes.now }
    ensures { result ≡ u16_at bytes.now at }
{
    u16::from_be_bytes([bytes[at], bytes[at + 1]])
}

/// The number in four bytes.
fn read_u32(bytes: &[u8], at: usize) -> u32
    requires { at + 4 ≤ length bytes.now }
    ensures { result ≡ u32_at bytes.now at }
{
    u32::from_be_bytes([bytes[at], bytes[at + 1], bytes[at + 2], bytes[at + 3]])
}

/// The number in eight bytes.
fn read_u64(bytes: &[u8], at: usize) -> u64
    requires { at + 8 ≤ length bytes.now }
    ensures { result ≡ u64_at bytes.now at }
{
    u64::from_be_bytes([
        bytes[at],
        bytes[at + 1],
        bytes[at + 2],
        bytes[at + 3],
        bytes[at + 4],
        bytes[at + 5],
        bytes[at + 6],
        bytes[at + 7],
    ])
}

/// The kind and the count of the record at the front of the bytes, or why none that starts at this LSN stands there.
fn judge(bytes: &[u8], start: u64) -> Result<(ChangeKind, usize), ChangeErr>
    requires limit { start ≤ LAST_LSN }
    ensures found { IfOk result (λ r. HasEnd bytes.now start r.0 r.1) }
    ensures refused { IfErr result (IsNoRecord bytes.now start) }
{
    let have = bytes.len();
    if have < 13 {
        return Err(ChangeErr::Short {
            need: 13,
            have: have as u64,
        });
    }
    let kind = match bytes[0] {
        1 => ChangeKind::Put,
        2 => ChangeKind::Create,
        found => return Err(ChangeErr::Kind { found }),
    };
    let count = read_u16(bytes, 11) as usize;
    if have < 21 + count {
        return Err(ChangeErr::Short {
            need: (21 + count) as u64,
            have: have as u64,
        });
    }
    let found = read_u64(bytes, 13 + count);
    let want = start + 21 + count as u64;
    if found != want {
        return Err(ChangeErr::Lsn { found, want });
    }
    Ok((kind, count))
}

/// Reads the record at the front of the bytes, which starts at the LSN `start`; what follows it isn't looked at.
///
/// `at` and the bytes of a create record are handed on as they stand (InnoDB's `recv_parse_log_rec`).
pub fn read_change(alloc: Global, bytes: &[u8], start: u64) -> Result<(Change, Span), ChangeErr>
    requires limit { start ≤ LAST_LSN }
    ensures record { IfOk result (λ r. IsRecord bytes.now start r.0) }
    ensures whole { IfOk result (λ r. FitsRecord r.0 × BeginsWith bytes.now (record_of r.0 start)) }
    ensures span { IfOk result (λ r. (r.1.start ≡ start) × (r.1.end ≡ start + RECORD_BYTES + length r.0.bytes)) }
    ensures exact { (c : Change) → FitsRecord c → BeginsWith bytes.now (record_of c start)
        → MatchResult result (λ r. r.0 ≡ c) (λ e. e ≡ ChangeErr.OutOfMemory) }
    ensures refused { IfErr result (λ e. (e ≡ ChangeErr.OutOfMemory) ⊎ IsNoRecord bytes.now start e) }
    ensures named { (e : ChangeErr) → IsNoRecord bytes.now start e → result ≡ Err e }
{
    let (kind, count) = judge(bytes, start)?;
    let body = Vec::from_slice(alloc, &bytes[13..13 + count])?;
    let page = PageId {
        space: read_u32(bytes, 1),
        page: read_u32(bytes, 5),
    };
    let change = Change {
        page,
        kind,
        at: u32::from(read_u16(bytes, 9)),
        bytes: Bytes::of(body),
    };
    let end = start + 21 + count as u64;
    Ok((change, Span { start, end }))
}

/// The fields at the front of bytes are those of a change's record exactly where the bytes begin with that record.
pub fn records_are_whole()
    ensures { (bytes : List ℕ) (start : ℕ) (c : Change) → All (λ b. b < 256) bytes → start ≤ LAST_LSN
        → (IsRecord bytes start c ↔ (FitsRecord c × BeginsWith bytes (record_of c start))) }
{}
