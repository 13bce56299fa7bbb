//! The commands that use neither a tablespace nor a log.
ghost use Rattle.std.specs.Prelude.{◌≡◌, ◌++◌, ◌⊎◌, ℕ, List, Some, MatchOption, IfSome, IfNone, map, string_bytes, take};
ghost use Rattle.page_ids.specs.Faults.{Rose};
ghost use Rattle.script_text.specs.CommandLine.{IsCalled};
ghost use Rattle.script_text.specs.Printed.{plan_text};
ghost use Rattle.script_run.specs.Runs.{AreRun, IsSilent};
ghost use Rattle.script_run.specs.Ends.{IsTakenWithin};
ghost use Rattle.script_run.specs.Plain.{streams, EndsCheck, IsPlainEnd};

use crate::ends::{NoScript, take_script, write_all};
use crate::outcome::Plain;
use page_disk::{Sink, Source};
use script_text::{Program, Script, WordsErr, command_of, print_script};
use std::alloc::Global;

/// Writes the printed form of a script, and answers the status of its command.
fn print<K: Sink>(alloc: Global, script: &Script, out: &mut K) -> u8
    ensures statuses { (result ≡ 0) ⊎ (result ≡ 5) ⊎ (result ≡ 7) }
    ensures written { result ≡ 0 → (held : List ℕ) → K.held out.old ≡ Some held
        → K.held out.new ≡ Some (held ++ plan_text script.now) }
    ensures cut { result ≡ 5 → Rose (K.fault_count out.old) (K.fault_count out.new) × ((held : List ℕ) → K.held out.old ≡ Some held
        → (n : ℕ) × (K.held out.new ≡ Some (held ++ take n (plan_text script.now)))) }
    ensures unwritten { result ≡ 7 → out.new ≡ out.old }
{
    let mut text = Vec::new(alloc);
    if print_script(script, &mut text).is_err() {
        return 7;
    }
    if write_all(out, text.as_slice()).is_err() {
        return 5;
    }
    0
}

/// Reads a script to its end, and writes its printed form.
fn check<S: Source, K: Sink>(alloc: Global, input: &mut S, out: &mut K) -> Plain
    ensures checked { EndsCheck (streams (S.left input.old) (S.fault_count input.old) (K.held out.old) (K.fault_count out.old))
        (streams (S.left input.new) (S.fault_count input.new) (K.held out.new) (K.fault_count out.new)) result }
    ensures taken { IsTakenWithin 0 1048577 (S.left input.old) (S.left input.new) }
    ensures unwritten { IsSilent result.status → out.new ≡ out.old }
{
    match take_script(alloc, input) {
        Ok(script) => Plain {
            status: print(alloc, &script, out),
            line: 0,
        },
        Err(NoScript::Fault) => Plain { status: 4, line: 0 },
        Err(NoScript::Bad { line }) => Plain { status: 3, line },
        Err(NoScript::OutOfMemory) => Plain { status: 7, line: 0 },
    }
}

/// Does what the words ask for, where that uses no device; `None` where they are a `run`.
///
/// The words are those behind the program's name. `check` reads a script to its end and writes its printed form: all settings with their
/// values, then the threads with their commands. Of an input that is no script nothing is written.
pub fn plain<S: Source, K: Sink>(
    alloc: Global,
    words: &[String],
    input: &mut S,
    out: &mut K,
) -> Option<Plain>
    ensures run { IfSome result (λ p. AreRun (map string_bytes words.now) → p.status ≡ 7) }
    ensures none { IfNone result (AreRun (map string_bytes words.now)) }
    ensures ended { IfSome result (IsPlainEnd (map string_bytes words.now)
        (streams (S.left input.old) (S.fault_count input.old) (K.held out.old) (K.fault_count out.old))
        (streams (S.left input.new) (S.fault_count input.new) (K.held out.new) (K.fault_count out.new))) }
    ensures unread { (IsCalled (map string_bytes words.now) Program.Check → ⊥) → input.new ≡ input.old }
    ensures unwritten { MatchOption result (out.new ≡ out.old) (λ p. IsSilent p.status → out.new ≡ out.old) }
{
    match command_of(alloc, words) {
        Ok(Program::Run { .. }) => None,
        Ok(Program::Check) => Some(check(alloc, input, out)),
        Err(WordsErr::Usage) => Some(Plain { status: 2, line: 0 }),
        Err(WordsErr::OutOfMemory) => Some(Plain { status: 7, line: 0 }),
    }
}
