//! The log device in memory, which fails where it is told to.
ghost use Rattle.std.specs.Prelude.{◌≡◌, ◌≤◌, ◌↔◌, ◌+◌, ◌/◌, ◌^◌, if◌then◌else◌, Contains, Some, None, length, OnOk, OnErr, IsErr, vec_len};
ghost use Rattle.page_ids.specs.Faults.{IsCounted};
ghost use Rattle.page_ids.specs.declared.limits.TheConstants.{LAST_LSN};
ghost use Rattle.redo_mark.specs.Device.{Told, Tells, IsPieceWritten, IsTorn, IsSynced, IsSame, IsAsOpened, put_at};
ghost use Rattle.redo_mark.specs.Memory.{kept_of, told_of, risen, IsOneCall, IsExact, IsHalfPut};

use crate::calls::Calls;
use crate::device::RedoDisk;
use page_ids::{Failed, OutOfMemory};

/// A log device in memory. It always tells.
///
/// A call of `write_at` or `sync` fails exactly where its number, counted from 1 over both, is listed, or where it finds no memory; then
/// `wants` rises. A listed write puts the first half of its piece there.
#[derive(Debug, Drop)]
pub struct RedoMemory {
    written: Vec<u8>,
    /// What is kept, where that isn't what is written.
    kept: Option<Vec<u8>>,
    opened: u64,
    calls: Calls,
    ghost grown: { opened ≤ length written.items },
    ghost held: { opened ≤ length (kept_of written.items kept) },
}

/// Puts the piece at this offset.
fn overwrite(bytes: &mut Vec<u8>, at: usize, piece: &[u8]) -> Result<(), OutOfMemory>
    requires { at ≤ vec_len bytes.old }
    ensures ok { OnOk result (bytes.new.items ≡ put_at at piece.now bytes.old.items) }
    ensures err { OnErr result (bytes.new.items ≡ bytes.old.items) }
{
    let inside = (bytes.len() - at).min(piece.len());
    bytes.extend_from_slice(&piece[inside..])?;
    bytes[at..at + inside].copy_from_slice(&piece[..inside]);
    Ok(())
}

/// How much of a piece of this length a write puts there.
fn put_len(listed: bool, len: usize) -> usize
    ensures { result ≡ (if listed then len / 2 else len) }
{
    if listed { len / 2 } else { len }
}

impl RedoMemory {
    /// A device that holds these bytes, as at its opening.
    pub fn new(bytes: Vec<u8>, failing: Vec<u64>) -> RedoMemory
        ensures told { (result.written.items ≡ bytes.items) × (result.kept ≡ None) × (result.opened ≡ vec_len bytes) }
        ensures opened { IsAsOpened result.opened (told_of result.written.items result.kept) }
        ensures calls { result.calls ≡ record { failing = failing.items; made = 0; faults = 0; wants = 0 } }
    {
        let opened = bytes.len() as u64;
        RedoMemory {
            written: bytes,
            kept: None,
            opened,
            calls: Calls::new(failing),
        }
    }

    /// How often a call found no memory.
    pub fn wants(&self) -> u64
        ensures { result ≡ self.now.calls.wants }
    {
        self.calls.wants()
    }

    /// The bytes that stood there at the last sync.
    pub fn kept(&self) -> &[u8]
        ensures { result.now ≡ kept_of self.now.written.items self.now.kept }
    {
        match &self.kept {
            Some(kept) => kept.as_slice(),
            None => self.written.as_slice(),
        }
    }

    /// Puts the piece at this offset, and leaves what is kept.
    fn put(&mut self, at: usize, piece: &[u8]) -> Result<(), OutOfMemory>
        requires { at ≤ length self.old.written.items }
        ensures ok { OnOk result (self.new.written.items ≡ put_at at piece.now self.old.written.items) }
        ensures err { OnErr result (self.new.written.items ≡ self.old.written.items) }
        ensures kept { kept_of self.new.written.items self.new.kept ≡ kept_of self.old.written.items self.old.kept }
        ensures rest { (self.new.opened ≡ self.old.opened) × (self.new.calls ≡ self.old.calls) }
    {
        if self.kept.is_none() {
            let kept = self.written.clone()?;
            self.kept = Some(kept);
        }
        overwrite(&mut self.written, at, piece)
    }
}

impl RedoDisk for RedoMemory {
    ghost use Rattle.std.specs.Prelude.{length};
    ghost use Rattle.std.proofs.Common.{rules};
    ghost use Rattle.redo_mark.specs.Memory.{told_of};

    ghost seen = { λ m. record {
      told = told_of m.written.items m.kept;
      opened = m.opened;
      reach = length m.written.items;
      faults = m.calls.faults;
    } };

    ghost sized = { λ m. record { least = m.grown; written = Prim.search rules; kept = m.held } };

    fn write_at(&mut self, at: u64, piece: &[u8]) -> Result<(), Failed>
        requires within { at ≤ length self.old.written.items }
        requires limit { at + length piece.now ≤ LAST_LSN }
        ensures put { OnOk result (Tells (told_of self.old.written.items self.old.kept)
            (told_of self.new.written.items self.new.kept) (IsPieceWritten at piece.now)) }
        ensures torn { OnErr result (Tells (told_of self.old.written.items self.old.kept)
            (told_of self.new.written.items self.new.kept) (IsTorn at (length piece.now))) }
        ensures reach { length self.old.written.items ≤ length self.new.written.items }
        ensures reached { OnOk result (at + length piece.now ≤ length self.new.written.items) }
        ensures opened { self.new.opened ≡ self.old.opened }
        ensures counted { IsCounted self.old.calls.faults self.new.calls.faults result }
        ensures called { IsOneCall self.old.calls self.new.calls }
        ensures exact { IsExact self.old.calls self.new.calls result }
        ensures half { OnErr result (IsHalfPut self.old.calls self.new.calls at piece.now
            self.old.written.items self.new.written.items) }
    {
        let listed = self.calls.begin();
        let most = put_len(listed, piece.len());
        if self.put(at as usize, &piece[..most]).is_err() {
            self.calls.want();
            return Err(self.calls.fail());
        }
        if listed {
            return Err(self.calls.fail());
        }
        Ok(())
    }

    fn sync(&mut self) -> Result<(), Failed>
        ensures synced { OnOk result (Tells (told_of self.old.written.items self.old.kept)
            (told_of self.new.written.items self.new.kept) IsSynced) }
        ensures failed { OnErr result (Tells (told_of self.old.written.items self.old.kept)
            (told_of self.new.written.items self.new.kept) IsSame) }
        ensures reach { length self.old.written.items ≤ length self.new.written.items }
        ensures opened { self.new.opened ≡ self.old.opened }
        ensures counted { IsCounted self.old.calls.faults self.new.calls.faults result }
        ensures called { IsOneCall self.old.calls self.new.calls }
        ensures exact { IsExact self.old.calls self.new.calls result }
        ensures listed { IsErr result ↔ Contains self.old.calls.failing (risen self.old.calls.made) }
        ensures wants { self.new.calls.wants ≡ self.old.calls.wants }
    {
        if self.calls.begin() {
            return Err(self.calls.fail());
        }
        self.kept = None;
        Ok(())
    }

    fn end(&self) -> u64 {
        self.opened
    }

    fn faults(&self) -> u64 {
        self.calls.faults()
    }
}
