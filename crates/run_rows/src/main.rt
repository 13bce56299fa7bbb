//! Runs scripts over devices in memory and prints what differs from what is wanted.
//!
//! Standard input holds cases, each ended by an empty line or by the end. The first word of a line says what the line tells. Bytes are
//! written as hexadecimal digits, between which blanks mean nothing. A line that begins with # is a comment.
//!
//! | line | what is given |
//! |---|---|
//! | `case NAME` | the name, which begins the case |
//! | `words WORD..` | the command words, divided by single blanks; else `run 0 file log` |
//! | `disk SIZE PAGES` | the bytes of a page, and the pages of space 0; else `disk 4096 64`. It stands before lines on pages |
//! | `has 0:P AT BYTES..` | what page P holds, from these places on; all else is 0 |
//! | `log BYTES` | what the log holds |
//! | `fails DEVICE N..` | which calls fail of `source`, `sink`, `shelf`, `disk` or `log`, counted from 1 |
//! | `takes N` | the sink takes at most N bytes a call |
//! | `< LINE`, `<N LINE` | a line of the script, or N such lines |
//! | `turns N PAGES` | lines that fix, change and give back a page, N times, of these pages one after the other |
//!
//! | line | what is wanted |
//! |---|---|
//! | `> LINE` | a line of the trails' text |
//! | `>N LINE` | line N of that text, from 0; the text is then compared at such lines alone |
//! | `status N`, `line N` | the status, and the bad line; else 0 |
//! | `fault DEVICE BEFORE AFTER` | the fault of the closing flush, of `disk` or `log`; else none |
//! | `written N` | how many bytes of the text the sink took; else all of it at the statuses 0 and 1, and none at the others |
//! | `marks END DURABLE`, `marks none` | the end of the log that is handed back, and how far it is durable; else `marks 8192 8192` |
//! | `kept BYTES`, `kept any` | what that log holds, where several such lines stand behind one another; or that it isn't looked at |
//! | `left DEVICE..` | which of `disk` and `log` are still on the shelf; else neither |
//! | `page 0:P AT BYTES..` | what page P of the disk that is handed back holds; all else is 0 |
//!
//! The last line is `N cases, M differ`. The status is 0 where none differs, 1 where one does, and 2 where the input can't be read.
#![tactic(auto)]

mod case;
mod compare;
mod narrow;
mod play;
mod reading;

use case::{Case, CaseErr};
use compare::compare;
use page_ids::OutOfMemory;
use play::play;
use std::io;
use std::process::ExitCode;

/// How many cases were run, and how many of them differ.
#[derive(Clone, Copy)]
struct Tally {
    cases: u64,
    differ: u64,
}

/// Runs a case and prints what differs. A case without a name is none.
fn judge(rt: &HostRuntime, case: Case, tally: &mut Tally) -> Result<(), OutOfMemory> {
    let Case {
        name,
        given,
        wanted,
    } = case;
    if name.is_empty() {
        return Ok(());
    }
    let alloc = rt.alloc();
    let mut played = play(rt, alloc, given)?;
    let found = compare(alloc, &mut played, &wanted)?;
    tally.cases = tally.cases.saturating_add(1);
    if !found.is_empty() {
        tally.differ = tally.differ.saturating_add(1);
        let _ = print!(rt; "{name}\n{found}");
    }
    Ok(())
}

/// Runs all cases of a text. Answers the number of a line that tells nothing, from 1.
fn judge_all(
    rt: &HostRuntime,
    text: &[u8],
    tally: &mut Tally,
) -> Result<Option<usize>, OutOfMemory> {
    let alloc = rt.alloc();
    let mut case = Case::new(alloc)?;
    for (at, line) in text.split(|byte| *byte == b'\n').enumerate() {
        if line.is_empty() {
            judge(rt, case, tally)?;
            case = Case::new(alloc)?;
            continue;
        }
        match case.read(alloc, line) {
            Ok(()) => {}
            Err(CaseErr::BadLine) => return Ok(Some(at.saturating_add(1))),
            Err(CaseErr::OutOfMemory) => return Err(OutOfMemory),
        }
    }
    judge(rt, case, tally)?;
    Ok(None)
}

fn main(rt: HostRuntime) -> ExitCode {
    let Ok(text) = io::read_to_string(rt.alloc(), rt.reader()) else {
        return ExitCode::from(2);
    };
    let mut tally = Tally {
        cases: 0,
        differ: 0,
    };
    match judge_all(&rt, text.as_bytes(), &mut tally) {
        Ok(None) => {}
        Ok(Some(line)) => {
            let _ = println!(rt; "line {line} tells nothing");
            return ExitCode::from(2);
        }
        Err(OutOfMemory) => {
            let _ = println!(rt; "out of memory");
            return ExitCode::from(2);
        }
    }
    let _ = println!(rt; "{} cases, {} differ", tally.cases, tally.differ);
    ExitCode::from(if tally.differ > 0 { 1 } else { 0 })
}
