//! Reads a script.
ghost use Rattle.std.specs.Prelude.{◌≡◌, ◌+◌, ◌≤◌, ◌∷◌, ◌⊎◌, ℕ, [], length, IfOk, MatchResult, Err};
ghost use Rattle.script_text.specs.Plan.{Plan};
ghost use Rattle.script_text.specs.Grammar.{Takes, AreRead, lines_of, nothing_said};
ghost use Rattle.script_text.specs.Faults.{is_faulty};
ghost use Rattle.script_text.specs.Verdict.{IsBadLine, IsScript, IsBadScript};
ghost use Rattle.script_text.specs.Within.{IsWithin};
ghost use Rattle.script_text.specs.Left.{lines_left, left};

use crate::draft::Draft;
use crate::lines::item_of;
use crate::script::{SCRIPT_BYTES, Script};
use page_ids::numerals::cut;
use std::alloc::{AllocError, Global};

/// Why bytes are no script.
#[derive(Clone, Copy, Debug, PartialEq, Eq)]
pub enum ScriptErr {
    /// The first line that isn't in the grammar, from 1; or 0 where the script is too long or its whole has a fault.
    BadLine { line: u32 },
    OutOfMemory,
}

/// Takes a line, and answers whether it may stand there.
fn take_line(alloc: Global, draft: &mut Draft, line: &[u8]) -> Result<bool, AllocError>
    ensures { IfOk result (λ good. Takes draft.old line.now good draft.new) }
{
    match item_of(alloc, line)? {
        None => Ok(false),
        Some(item) => draft.take(item),
    }
}

/// The first line, and what follows it.
fn next_line(text: &[u8]) -> (&[u8], Option<&[u8]>)
    ensures lines { lines_of text.now ≡ result.0.now ∷ lines_left result.1 }
    ensures fewer { left result.1 ≤ length text.now }
{
    match cut(b'\n', text) {
        Some((line, others)) => (line, Some(others)),
        None => (text, None),
    }
}

/// Takes all lines.
fn read_lines(alloc: Global, bytes: &[u8]) -> Result<Draft, ScriptErr>
    requires short { length bytes.now ≤ SCRIPT_BYTES }
    ensures read { IfOk result (λ draft. AreRead nothing_said (lines_of bytes.now) draft) }
    ensures bad { (n : ℕ) → result ≡ Err (ScriptErr.BadLine n) → IsBadLine (lines_of bytes.now) n }
{
    let mut draft = Draft::new(alloc);
    let mut number: u32 = 0;
    let mut rest = Some(bytes);
    while let Some(text) = rest {
        let (line, others) = next_line(text);
        number += 1;
        match take_line(alloc, &mut draft, line) {
            Ok(true) => (),
            Ok(false) => return Err(ScriptErr::BadLine { line: number }),
            Err(_) => return Err(ScriptErr::OutOfMemory),
        }
        rest = others;
    }
    Ok(draft)
}

/// Whether the whole has a fault.
fn is_faulty(script: &Script) -> bool
    ensures { result ≡ is_faulty script.now }
{
    let config = script.config();
    match config.check() {
        Ok(chunks) => config.instances > 1 || config.first > 0 || chunks > 1,
        Err(_) => true,
    }
}

/// Reads a script. As bytes have one verdict only, what `read_script` says follows from these clauses.
fn read_whole(alloc: Global, bytes: &[u8]) -> Result<Script, ScriptErr>
    ensures read { IfOk result (λ script. IsScript bytes.now script) }
    ensures bad { (n : ℕ) → result ≡ Err (ScriptErr.BadLine n) → IsBadScript bytes.now n }
{
    if bytes.len() > SCRIPT_BYTES {
        return Err(ScriptErr::BadLine { line: 0 });
    }
    let draft = read_lines(alloc, bytes)?;
    let script = draft.finish();
    if is_faulty(&script) {
        return Err(ScriptErr::BadLine { line: 0 });
    }
    Ok(script)
}

/// What the bytes of a script ask for, or the first line that isn't in the grammar.
///
/// A script has at most 1048576 bytes, and its threads' commands make at most 65536 calls; so far it has one thread.
/// What is asked of the whole is looked at where every line is in the grammar: that a pool can be made with its numbers
/// (`Config::check`), and so far that this is one instance, with one chunk at the start, whose history begins at place 0.
pub fn read_script(alloc: Global, bytes: &[u8]) -> Result<Script, ScriptErr>
    ensures read { IfOk result (λ script. IsScript bytes.now script) }
    ensures within { IfOk result (λ script. IsWithin script) }
    ensures only { (plan : Plan) → IsScript bytes.now plan
        → MatchResult result (λ script. script ≡ plan) (λ e. e ≡ ScriptErr.OutOfMemory) }
    ensures bad { (n : ℕ) → result ≡ Err (ScriptErr.BadLine n) → IsBadScript bytes.now n }
    ensures bad_only { (n : ℕ) → IsBadScript bytes.now n
        → (result ≡ Err (ScriptErr.BadLine n)) ⊎ (result ≡ Err ScriptErr.OutOfMemory) }
{
    read_whole(alloc, bytes)
}
