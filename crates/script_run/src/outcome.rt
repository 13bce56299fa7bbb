//! What the program's commands answer.
ghost use Rattle.std.specs.Prelude.{◌≡◌, [], None};

use page_disk::{FaultAt, PageDisk};
use redo_mark::{RedoDisk, RedoEnd};
use std::alloc::Global;
use trail::Trail;

/// What a run answers: its status, and what stands then.
///
/// | status | when |
/// |---|---|
/// | 0 | the script was run, and no call was refused |
/// | 1 | the script was run, and a call was refused |
/// | 2 | the words are no command |
/// | 3 | the script is none; `line` is its first bad line, or 0 for a fault of the whole; or the log is too long for its `lsn`, which is line 0 |
/// | 4 | the script's source failed |
/// | 5 | the output failed; a beginning of the text was written |
/// | 6 | a device failed: at its opening, or in the closing flush, and then `fault` tells which |
/// | 7 | want of memory |
///
/// At 0, 1, 5 and at 6 with a fault the trails, the disks and the log are here, else none; a log that is too long is here too. Nothing was
/// written to the sink but at 0, 1 and 5.
#[derive(Drop)]
pub struct Outcome<D: PageDisk, R: RedoDisk> {
    pub status: u8,
    /// The bad line at status 3, else 0.
    pub line: u32,
    /// The fault of the closing flush at status 6, else none.
    pub fault: Option<FaultAt>,
    /// One trail per instance.
    pub trails: Vec<Trail>,
    /// One disk per instance.
    pub disks: Vec<D>,
    /// The log's device, its end and how far it is durable.
    pub redo: Option<RedoEnd<R>>,
}

/// How a command ended that uses no device.
///
/// | status | when |
/// |---|---|
/// | 0 | the input is a script, and its printed form was written whole |
/// | 2 | the words are no command |
/// | 3 | the input is no script; `line` is its first bad line, or 0 for a fault of the whole |
/// | 4 | the input failed |
/// | 5 | the output failed; a beginning of the printed form was written |
/// | 7 | want of memory |
#[derive(Clone, Copy, Debug, PartialEq, Eq)]
pub struct Plain {
    pub status: u8,
    /// The bad line at status 3, else 0.
    pub line: u32,
}

/// An answer without trails, disks and log.
pub(crate) fn bare<D: PageDisk, R: RedoDisk>(alloc: Global, status: u8, line: u32) -> Outcome<D, R>
    ensures status { result.status ≡ status }
    ensures line { result.line ≡ line }
    ensures fault { result.fault ≡ None }
    ensures trails { result.trails.items ≡ [] }
    ensures disks { result.disks.items ≡ [] }
    ensures redo { result.redo ≡ None }
{
    Outcome {
        status,
        line,
        fault: None,
        trails: Vec::new(alloc),
        disks: Vec::new(alloc),
        redo: None,
    }
}
