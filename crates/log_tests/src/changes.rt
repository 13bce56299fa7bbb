//! Two changes, and the bytes of their records.
ghost use Rattle.std.specs.Prelude.{IfOk};
ghost use Rattle.redo_mark.specs.Records.{IsLoggable};

use page_ids::{Bytes, OutOfMemory, PageId};
use redo_mark::{Change, ChangeKind, Draft, Span};
use std::alloc::{AllocError, Global};

/// Byte ab is put at 4087 of page 0:0, from LSN 8192 to 8214; then page 0:1 is created, up to LSN 8235.
pub const LOG: [u8; 43] = [
    0x01, 0x00, 0x00, 0x00, 0x00, 0x00, 0x00, 0x00, 0x00, 0x0f, 0xf7, 0x00, 0x01, 0xab, 0x00, 0x00,
    0x00, 0x00, 0x00, 0x00, 0x20, 0x16, 0x02, 0x00, 0x00, 0x00, 0x00, 0x00, 0x00, 0x00, 0x01, 0x00,
    0x00, 0x00, 0x00, 0x00, 0x00, 0x00, 0x00, 0x00, 0x00, 0x20, 0x2b,
];

pub const SPANS: [Span; 2] = [
    Span {
        start: 8192,
        end: 8214,
    },
    Span {
        start: 8214,
        end: 8235,
    },
];

/// A byte that is put at 4087 of page 0:0.
pub fn put(alloc: Global, byte: u8) -> Result<Change, AllocError>
    ensures { IfOk result IsLoggable }
{
    Ok(Change {
        page: PageId { space: 0, page: 0 },
        kind: ChangeKind::Put,
        at: 4087,
        bytes: Bytes::of(Vec::from_slice(alloc, &[byte])?),
    })
}

/// Page 0:1 is created.
pub fn create(alloc: Global) -> Change
    ensures { IsLoggable result }
{
    Change {
        page: PageId { space: 0, page: 1 },
        kind: ChangeKind::Create,
        at: 0,
        bytes: Bytes::of(Vec::new(alloc)),
    }
}

/// The draft of a put.
pub fn put_draft(alloc: Global, byte: u8) -> Result<Draft, OutOfMemory> {
    Draft::of(alloc, &put(alloc, byte)?)
}

/// The draft of the create.
pub fn create_draft(alloc: Global) -> Result<Draft, OutOfMemory> {
    Draft::of(alloc, &create(alloc))
}
