//! Changes of pages, and their records.
ghost use Rattle.std.specs.Prelude.{◌≡◌, IfOk, OnOk};
ghost use Rattle.std.specs.Int.{w64, to_be_bytes};
ghost use Rattle.redo_mark.specs.Records.{FitsRecord, IsLoggable, head_of};
ghost use Rattle.redo_mark.specs.Pending.{joined, IsDraft};

use page_ids::{Bytes, OutOfMemory, PageId};
use std::alloc::Global;
use std::collections::LinkedList;
use std::marker::Model;

/// What a change does to its page.
#[derive(Clone, Copy, Debug, PartialEq, Eq)]
pub enum ChangeKind {
    /// Bytes of the page's body are replaced (InnoDB's `MLOG_WRITE_STRING`).
    Put,
    /// The page becomes a page of zeros (InnoDB's `MLOG_INIT_FILE_PAGE2`).
    Create,
}

/// A change of a page. A create has `at` 0 and no bytes.
#[derive(Debug, PartialEq, Drop)]
pub struct Change {
    pub page: PageId,
    pub kind: ChangeKind,
    /// The offset in the page of the first byte that is replaced.
    pub at: u32,
    pub bytes: Bytes,
}

/// Where a record stands in the log: the LSN of its first byte, and the LSN behind its last one.
#[derive(Clone, Copy, Debug, PartialEq, Eq)]
pub struct Span {
    pub start: u64,
    pub end: u64,
}

/// The record of a change, its end LSN still open, in a list node of its own. Contracts see the bytes before the end LSN.
#[derive(Drop)]
pub struct Draft {
    node: LinkedList<Vec<u8>>,
}

impl Model for Draft {
    ghost use Rattle.std.specs.Prelude.{List, ℕ};
    ghost use Rattle.redo_mark.specs.Pending.{joined, IsDraft};

    ghost Value = { List ℕ };

    ghost view = { λ d. joined d.node };

    ghost invariant = { λ d. IsDraft d.node };
}

/// All of a record but its end LSN.
fn head(alloc: Global, change: &Change) -> Result<Vec<u8>, OutOfMemory>
    requires loggable { IsLoggable change.now }
    ensures bytes { IfOk result (λ v. v.items ≡ head_of change.now) }
    ensures fits { OnOk result (FitsRecord change.now) }
{
    let kind = match change.kind {
        ChangeKind::Put => 1,
        ChangeKind::Create => 2,
    };
    let bytes = change.bytes.as_slice();
    let mut out = Vec::new(alloc);
    out.push(kind)?;
    out.extend_from_slice(&change.page.space.to_be_bytes())?;
    out.extend_from_slice(&change.page.page.to_be_bytes())?;
    out.extend_from_slice(&(change.at as u16).to_be_bytes())?;
    out.extend_from_slice(&(bytes.len() as u16).to_be_bytes())?;
    out.extend_from_slice(bytes)?;
    Ok(out)
}

impl Draft {
    /// Makes the record of a change. It takes all the memory that the record will need.
    ///
    /// `at` and the number of bytes are below 65536, and both are 0 for a create.
    pub fn of(alloc: Global, change: &Change) -> Result<Draft, OutOfMemory>
        requires loggable { IsLoggable change.now }
        ensures bytes { IfOk result (λ d. d ≡ head_of change.now) }
    {
        let mut bytes = head(alloc, change)?;
        bytes.reserve(8)?;
        let mut node = LinkedList::new(alloc);
        node.push_back(bytes)?;
        Ok(Draft { node })
    }

    /// The node with the record.
    pub(crate) fn into_node(self) -> LinkedList<Vec<u8>>
        ensures bytes { joined result ≡ self }
        ensures draft { IsDraft result }
    {
        let Draft { node } = self;
        node
    }
}
