//! Reading a script from a source, and writing a text whole.
ghost use Rattle.std.specs.Prelude.{◌≡◌, ◌≤◌, ◌<◌, ◌+◌, ◌⊎◌, ◌++◌, [], ℕ, List, true, false, Some, IfOk, IfErr, OnOk, OnErr, IsErrAnd, length, take, vec_len};
ghost use Rattle.script_text.specs.Verdict.{IsBadScript};
ghost use Rattle.script_text.specs.Within.{IsWithin};
ghost use Rattle.page_ids.specs.Faults.{Rose};
ghost use Rattle.script_run.specs.Ends.{IsReadErr, IsTakenWithin, IsTakenScript, IsNoScriptErr, IsBadAt};

use page_disk::{Sink, Source};
use page_ids::Failed;
use script_text::{Script, ScriptErr, read_script};
use std::alloc::Global;

/// A script has at most 1048576 bytes; one more shows that it is too long, and what follows is not read.
const MOST: usize = 1_048_577;

/// Bytes asked for in one call of a source.
const PIECE: usize = 65_536;

/// Why a source was not read to its end.
#[derive(Clone, Copy, Debug)]
pub(crate) enum ReadErr {
    OutOfMemory,
    Fault,
}

/// Takes the next bytes of a source to the front of the piece.
fn take_piece<S: Source>(source: &mut S, piece: &mut Vec<u8>) -> Result<u32, Failed>
    requires some { 0 < vec_len piece.old }
    ensures piece { vec_len piece.new ≡ vec_len piece.old }
    ensures most { IfOk result (λ n. n ≤ vec_len piece.old) }
    ensures given { IfOk result (λ n. (bytes : List ℕ) → S.left source.old ≡ Some bytes → (rest : List ℕ) × (S.left source.new ≡ Some rest) × (bytes ≡ take n piece.new.items ++ rest) × (n ≡ 0 → bytes ≡ [])) }
    ensures stays { OnErr result (S.left source.new ≡ S.left source.old) }
    ensures later { S.fault_count source.old ≤ S.fault_count source.new }
    ensures failed { OnErr result (Rose (S.fault_count source.old) (S.fault_count source.new)) }
{
    source.take(piece.as_mut_slice())
}

/// Takes the next bytes of a source behind those that it gave, up to the most; answers whether any came.
fn take_more<S: Source>(
    source: &mut S,
    piece: &mut Vec<u8>,
    all: &mut Vec<u8>,
) -> Result<bool, ReadErr>
    requires piece { 0 < vec_len piece.old }
    requires room { vec_len all.old ≤ 1048576 }
    ensures piece { 0 < vec_len piece.new }
    ensures most { OnOk result (vec_len all.new ≤ 1048577) }
    ensures grows { IfOk result (λ more. more ≡ true → vec_len all.old + 1 ≤ vec_len all.new) }
    ensures given { IfOk result (λ more. (bytes : List ℕ) → S.left source.old ≡ Some bytes → (rest : List ℕ) × (S.left source.new ≡ Some rest) × (all.old.items ++ bytes ≡ all.new.items ++ rest) × (more ≡ false → rest ≡ [])) }
    ensures taken { IsTakenWithin (vec_len all.old) 1048577 (S.left source.old) (S.left source.new) }
    ensures later { S.fault_count source.old ≤ S.fault_count source.new }
    ensures refused { IfErr result (λ e. IsReadErr (S.fault_count source.old) (S.fault_count source.new) e) }
{
    piece.truncate(MOST - all.len());
    let Ok(count) = take_piece(source, piece) else {
        return Err(ReadErr::Fault);
    };
    if count == 0 {
        return Ok(false);
    }
    if all.extend_from_slice(&piece[..count as usize]).is_err() {
        return Err(ReadErr::OutOfMemory);
    }
    Ok(true)
}

/// Reads a source to its end, or to one byte more than a script may have.
pub(crate) fn read_all<S: Source>(alloc: Global, source: &mut S) -> Result<Vec<u8>, ReadErr>
    ensures given { IfOk result (λ all. (bytes : List ℕ) → S.left source.old ≡ Some bytes → (rest : List ℕ) × (S.left source.new ≡ Some rest) × (bytes ≡ all.items ++ rest) × ((rest ≡ []) ⊎ (length all.items ≡ 1048577))) }
    ensures taken { IsTakenWithin 0 1048577 (S.left source.old) (S.left source.new) }
    ensures refused { IfErr result (λ e. IsReadErr (S.fault_count source.old) (S.fault_count source.new) e) }
{
    let Ok(mut piece) = vec![in alloc; 0; PIECE] else {
        return Err(ReadErr::OutOfMemory);
    };
    let mut all = Vec::new(alloc);
    while all.len() < MOST {
        match take_more(source, &mut piece, &mut all) {
            Ok(true) => (),
            Ok(false) => return Ok(all),
            Err(error) => return Err(error),
        }
    }
    Ok(all)
}

/// Why a source gave no script.
#[derive(Clone, Copy, Debug)]
pub(crate) enum NoScript {
    /// The source failed.
    Fault,
    /// What it gave is none; the line is the first bad one, or 0 for a fault of the whole.
    Bad { line: u32 },
    OutOfMemory,
}

/// Reads the script that a source gives, to its end.
pub(crate) fn take_script<S: Source>(alloc: Global, source: &mut S) -> Result<Script, NoScript>
    ensures read { IfOk result (λ script. IsTakenScript (S.left source.old) (S.left source.new) script) }
    ensures within { IfOk result (λ script. IsWithin script) }
    ensures taken { IsTakenWithin 0 1048577 (S.left source.old) (S.left source.new) }
    ensures refused { IfErr result (IsNoScriptErr (S.left source.old) (S.fault_count source.old) (S.fault_count source.new)) }
    ensures bad { (bytes : List ℕ) (n : ℕ) → S.left source.old ≡ Some bytes → IsBadScript bytes n
        → IsErrAnd result (IsBadAt n) }
{
    let bytes = match read_all(alloc, source) {
        Ok(bytes) => bytes,
        Err(ReadErr::Fault) => return Err(NoScript::Fault),
        Err(ReadErr::OutOfMemory) => return Err(NoScript::OutOfMemory),
    };
    match read_script(alloc, bytes.as_slice()) {
        Ok(script) => Ok(script),
        Err(ScriptErr::BadLine { line }) => Err(NoScript::Bad { line }),
        Err(ScriptErr::OutOfMemory) => Err(NoScript::OutOfMemory),
    }
}

/// Writes all of a text behind what the sink holds.
pub(crate) fn write_all<K: Sink>(sink: &mut K, text: &[u8]) -> Result<(), Failed>
    ensures ok { OnOk result ((held : List ℕ) → K.held sink.old ≡ Some held → K.held sink.new ≡ Some (held ++ text.now)) }
    ensures part { OnErr result ((held : List ℕ) → K.held sink.old ≡ Some held → (n : ℕ) × (K.held sink.new ≡ Some (held ++ take n text.now))) }
    ensures fault { OnErr result (Rose (K.fault_count sink.old) (K.fault_count sink.new)) }
{
    let mut at = 0;
    while at < text.len() {
        let Ok(count) = sink.put(&text[at..]) else {
            return Err(Failed);
        };
        at += count as usize;
    }
    Ok(())
}
