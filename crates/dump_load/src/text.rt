//! The text of a dump.
ghost use Rattle.std.specs.Prelude.{◌≡◌, ◌<◌, ◌≤◌, ◌++◌, ◌∷◌, ◌==◌, ◌⊎◌, ℕ, List, [], false, length, take, OnOk, OnErr, IfOk, IfErr, MatchResult};
ghost use Rattle.std.specs.List.{AllByRecursion};
ghost use Rattle.page_ids.specs.declared.ids.PageId.{PageId};
ghost use Rattle.dump_load.specs.declared.text.DumpErr.{DumpErr};
ghost use Rattle.page_ids.specs.Typed.{ArePages};
ghost use Rattle.dump_load.specs.Text.{id_line, dump_text, ended, IsDump, IsRefusedDump};
ghost use Rattle.dump_load.specs.Reading.{id_of};

use page_ids::numerals::{cut, number_u32};
use page_ids::{OutOfMemory, PageId};
use std::alloc::{AllocError, Global};

/// How many ids a dump may have.
pub const MOST_IDS: u32 = 65_536;

/// Why bytes are no dump.
#[derive(Clone, Copy, Debug, PartialEq, Eq)]
pub enum DumpErr {
    /// The first line that is no id, from 1.
    BadLine { line: u32 },
    /// The first line behind `MOST_IDS` ids, whatever it says: line 65537.
    TooMany { line: u32 },
    /// There is no memory for the ids.
    OutOfMemory,
}

/// Appends an id's line, without its newline.
fn push_id(id: PageId, out: &mut Vec<u8>) -> Result<(), AllocError>
    ensures text { OnOk result (out.new.items ≡ out.old.items ++ id_line id) }
    ensures err { OnErr result (out.new.items ≡ out.old.items) }
{
    let alloc = *out.allocator();
    let PageId { space, page } = id;
    let text = format!(in alloc; "{space},{page}")?;
    out.extend_from_slice(text.as_bytes())
}

/// Appends the ids' lines, each ended by a newline. Where there is no memory for all, it may leave some.
fn push_ids(ids: &[PageId], out: &mut Vec<u8>) -> Result<(), AllocError>
    ensures text { OnOk result (out.new.items ≡ out.old.items ++ dump_text ids.now) }
    ensures err { OnErr result (take (length out.old.items) out.new.items ≡ out.old.items) }
{
    for id in ids {
        push_id(*id, out)?;
        out.push(b'\n')?;
    }
    Ok(())
}

/// Appends a dump of these ids: a line for each, its space and page with a comma between them (buf0dump's `buf_dump`).
pub fn dump_text(ids: &[PageId], out: &mut Vec<u8>) -> Result<(), OutOfMemory>
    ensures text { OnOk result (out.new.items ≡ out.old.items ++ dump_text ids.now) }
    ensures err { OnErr result (out.new.items ≡ out.old.items) }
{
    let len = out.len();
    match push_ids(ids, out) {
        Ok(()) => Ok(()),
        Err(_) => {
            out.truncate(len);
            Err(OutOfMemory)
        }
    }
}

/// The id that a line spells.
fn id(line: &[u8]) -> Option<PageId>
    ensures { result ≡ id_of line.now }
{
    let (space, page) = cut(b',', line)?;
    let space = number_u32(space)?;
    let page = number_u32(page)?;
    Some(PageId { space, page })
}

/// The first line of a text that has one, and what follows it.
fn next_line(text: &[u8]) -> (&[u8], &[u8])
    requires some { 0 < length text.now }
    ensures lines { ended text.now ≡ result.0.now ++ 10 ∷ ended result.1.now }
    ensures whole { AllByRecursion (λ b. (b == 10) ≡ false) result.0.now }
    ensures fewer { length result.1.now < length text.now }
{
    match cut(b'\n', text) {
        Some((line, others)) => (line, others),
        None => (text, &text[text.len()..]),
    }
}

/// Reads all lines. As bytes have one verdict only, what `read_dump` says follows from this.
fn read_lines(alloc: Global, bytes: &[u8]) -> Result<Vec<PageId>, DumpErr>
    ensures { MatchResult result (λ ids. IsDump bytes.now ids.items)
        (λ e. (e ≡ DumpErr.OutOfMemory) ⊎ IsRefusedDump bytes.now e) }
{
    let mut ids = Vec::new(alloc);
    let mut rest = bytes;
    while !rest.is_empty() {
        let number = ids.len() as u32 + 1;
        if number > MOST_IDS {
            return Err(DumpErr::TooMany { line: number });
        }
        let (line, others) = next_line(rest);
        let Some(id) = id(line) else {
            return Err(DumpErr::BadLine { line: number });
        };
        match ids.push(id) {
            Ok(()) => rest = others,
            Err(_) => return Err(DumpErr::OutOfMemory),
        }
    }
    Ok(ids)
}

/// The ids of a dump in the order of its lines, or the first line that is bad or too many (buf0dump's `buf_load`).
///
/// A line is `SPACE,PAGE`, both numbers below 2^32, without sign or leading zero. The last newline may be missing. An empty
/// text has no ids. Ids may repeat and stand in any order; there are at most `MOST_IDS`.
pub fn read_dump(alloc: Global, bytes: &[u8]) -> Result<Vec<PageId>, DumpErr>
    ensures read { IfOk result (λ ids. IsDump bytes.now ids.items) }
    ensures only { (ids : List PageId) → IsDump bytes.now ids
        → MatchResult result (λ found. found.items ≡ ids) (λ e. e ≡ DumpErr.OutOfMemory) }
    ensures refused { IfErr result (λ e. (e ≡ DumpErr.OutOfMemory) ⊎ IsRefusedDump bytes.now e) }
    ensures refused_only { (why : DumpErr) → IsRefusedDump bytes.now why
        → MatchResult result (λ _. ⊥) (λ e. (e ≡ why) ⊎ (e ≡ DumpErr.OutOfMemory)) }
{
    read_lines(alloc, bytes)
}

/// What is printed reads back, with its last newline and without it. Does nothing; who calls it has this of every list of ids.
pub fn a_dump_reads_back()
    ensures whole { (ids : List PageId) → ArePages ids → length ids ≤ MOST_IDS → IsDump (dump_text ids) ids }
    ensures cut { (ids : List PageId) (last : PageId) → ArePages (ids ++ last ∷ []) → length ids < MOST_IDS
        → IsDump (dump_text ids ++ id_line last) (ids ++ last ∷ []) }
{}
