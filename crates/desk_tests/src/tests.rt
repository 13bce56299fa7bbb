//! Steps of a trial, with the lines that are wanted.

use crate::trial::Trial;
use desk::Granted;
use page_ids::OutOfMemory;
use std::alloc::Global;
use std::test::Fail;

/// A call of a trial, at the moment 1. Pages are those of space 0.
#[derive(Clone, Copy)]
enum Step {
    /// Answers frame, clock and place.
    Fix(u32),
    /// Answers frame, clock and place.
    Create(u32),
    /// Puts bytes at this place of the page that was fixed last. Answers LSN and place.
    Put(u32, &'static [u8]),
    /// Gives a fix of a frame back. Answers the frame's word before that.
    Unfix(u32),
    /// Answers how many pages were written.
    Clean(u32),
    /// Answers from where a redo would have to begin.
    Check,
}

/// Steps with their answers.
const STEPS: [(Step, &str); 8] = [
    (Step::Fix(0), "0 1 2"),
    (Step::Put(38, &[1]), "8214 3"),
    (Step::Create(5), "1 4 4"),
    (Step::Unfix(0), "3/R/1"),
    (Step::Check, "8192"),
    (Step::Clean(1), "1"),
    (Step::Check, "8214"),
    (Step::Create(5), "refused"),
];

/// The entries that they leave.
const ENTRIES: [&str; 9] = [
    "E 1 1.1 load 0:0 0",
    "E 2 1.1 fix 0:0 0 1 1",
    "E 3 1.2 put 0:0 38 01 8192 8214",
    "E 4 1.3 create 0:5 1 8214 8235 1",
    "E 5 1.4 checkpoint 8192",
    "E 6 0.1 write 0:0 8214 8235",
    "E 7 0.1 clean 1 -",
    "E 8 1.5 checkpoint 8214",
    "E 9 1.6 refused create 0:5 1 Resident 1",
];

/// The line of a fix or a create.
fn grant_line(alloc: Global, grant: Option<Granted>) -> Result<String, OutOfMemory> {
    match grant {
        Some(
            Granted {
                frame,
                clock,
                place,
            },
        ) => Ok(format!(in alloc; "{frame} {clock} {place}")?),
        None => Ok(String::from_str(alloc, "refused")?),
    }
}

/// Makes a step, and answers its line.
fn line(alloc: Global, trial: &mut Trial, step: &Step) -> Result<String, OutOfMemory> {
    let line = match step {
        Step::Fix(page) => return grant_line(alloc, trial.fix(*page)),
        Step::Create(page) => return grant_line(alloc, trial.create(*page)),
        Step::Put(at, bytes) => match trial.put(*at, bytes) {
            Some((lsn, place)) => format!(in alloc; "{lsn} {place}")?,
            None => String::from_str(alloc, "refused")?,
        },
        Step::Unfix(frame) => match trial.unfix(*frame) {
            Some(word) => format!(in alloc; "{word}")?,
            None => String::from_str(alloc, "refused")?,
        },
        Step::Clean(bound) => format!(in alloc; "{}", trial.clean(*bound))?,
        Step::Check => format!(in alloc; "{}", trial.check())?,
    };
    Ok(line)
}

#[test]
fn each_call_answers_and_leaves_its_entries(rt: HostRuntime) -> Result<(), Fail> {
    let alloc = rt.alloc();
    let mut trial = Trial::new(alloc)?;
    for (step, want) in &STEPS {
        assert_eq!(rt; line(alloc, &mut trial, step)?.as_str(), *want);
    }
    let entries = trial.end();
    assert_eq!(rt; entries.len(), ENTRIES.len());
    for (entry, want) in entries.iter().zip(ENTRIES.iter()) {
        assert_eq!(rt; entry.to_string(alloc)?.as_str(), *want);
    }
    Ok(())
}
