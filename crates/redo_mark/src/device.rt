//! The log's device.
ghost use Rattle.std.specs.Prelude.{◌≡◌, ◌≤◌, ◌+◌, ◌^◌, length, OnOk, OnErr};
ghost use Rattle.page_ids.specs.Faults.{IsCounted};
ghost use Rattle.page_ids.specs.declared.limits.TheConstants.{LAST_LSN};
ghost use Rattle.redo_mark.specs.Device.{RedoSeen, Tells, IsPieceWritten, IsTorn, IsSynced, IsSame, IsSized};

use page_ids::Failed;

/// A file of bytes, which is written piece by piece and synced. Offsets and lengths are in bytes.
///
/// What it holds is told optionally, and a device that tells goes on to tell. A call fails only where the count of faults rose in it.
pub trait RedoDisk: Send + Drop {
    /// What it tells of itself. Its length at the opening never changes; its count of faults stays at 2^64 - 1.
    ghost seen: { Self → RedoSeen };

    /// Puts the piece at this offset. After a failure anything may stand in its range; what is kept stays.
    fn write_at(&mut self, at: u64, piece: &[u8]) -> Result<(), Failed>
        requires within { at ≤ (seen self.old).reach }
        requires limit { at + length piece.now ≤ LAST_LSN }
        ensures put { OnOk result (Tells (seen self.old).told (seen self.new).told (IsPieceWritten at piece.now)) }
        ensures torn { OnErr result (Tells (seen self.old).told (seen self.new).told (IsTorn at (length piece.now))) }
        ensures reach { (seen self.old).reach ≤ (seen self.new).reach }
        ensures reached { OnOk result (at + length piece.now ≤ (seen self.new).reach) }
        ensures opened { (seen self.new).opened ≡ (seen self.old).opened }
        ensures counted { IsCounted (seen self.old).faults (seen self.new).faults result };

    /// Keeps all that was written. After a failure, what is kept stays.
    fn sync(&mut self) -> Result<(), Failed>
        ensures synced { OnOk result (Tells (seen self.old).told (seen self.new).told IsSynced) }
        ensures failed { OnErr result (Tells (seen self.old).told (seen self.new).told IsSame) }
        ensures reach { (seen self.old).reach ≤ (seen self.new).reach }
        ensures opened { (seen self.new).opened ≡ (seen self.old).opened }
        ensures counted { IsCounted (seen self.old).faults (seen self.new).faults result };

    /// The length at the opening, which never changes.
    fn end(&self) -> u64
        ensures { result ≡ (seen self.now).opened };

    /// The count of faults.
    fn faults(&self) -> u64
        ensures { result ≡ (seen self.now).faults };

    /// It is never shorter than at its opening, nor than what it surely has.
    ghost sized: { (d : Self) → IsSized (seen d) };
}
