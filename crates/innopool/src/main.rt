//! The program: its words, standard input and output, the tablespace file and the log file, handed to the library's top call.
//!
//! All that matters is in `script_run`: `plain` for the commands that use no device, and `run`. Here stand the adapters over the real
//! outside, which tell no content and count their faults from 0, and the lines on standard error.
#![tactic(auto)]

ghost use Rattle.std.specs.Prelude.{◌≡◌, ℕ, List, IsSomeAnd};
ghost use Rattle.page_disk.specs.Shelves.{unasked};

mod file_shelf;
mod log_file;
mod opening;
mod standard;
mod tablespace;

use file_shelf::FileShelf;
use script_run::{plain, run};
use script_text::{Program, WordsErr, command_of};
use standard::{InputStream, OutputStream};
use std::io::ErrorKind;
use std::process::ExitCode;

/// The words after the program's name. A word that is no UTF-8 is in no command.
fn words_of(rt: &HostRuntime) -> Result<Vec<String>, WordsErr> {
    let words = match std::env::args(rt) {
        Ok(words) => words,
        Err(error) if error.kind() == ErrorKind::OutOfMemory => return Err(WordsErr::OutOfMemory),
        Err(_) => return Err(WordsErr::Usage),
    };
    match words.skip(1).collect(rt.alloc()) {
        Ok(words) => Ok(words),
        Err(_) => Err(WordsErr::OutOfMemory),
    }
}

/// The shelf of a `run`: its tablespace, as its space, and its log.
fn shelf_of<'a>(rt: &'a HostRuntime, program: &'a Program) -> Option<FileShelf<'a>>
    ensures { (space : ℕ) (file log : List ℕ) → program.entry.now ≡ Program.Run space file log
        → IsSomeAnd result (λ s. (s.space ≡ space) × (s.file.now ≡ file) × (s.log.now ≡ log) × (s.asked ≡ unasked)) }
{
    match program {
        Program::Run { space, file, log } => {
            Some(FileShelf::new(rt, *space, file.as_str(), log.as_str()))
        }
        Program::Check => None,
    }
}

/// Does what the words ask for. Answers the status and, for a bad script, its line.
fn play(rt: &HostRuntime) -> Result<(u8, u32), WordsErr> {
    let words = words_of(rt)?;
    let mut input = InputStream::new(rt.stdin());
    let mut out = OutputStream::new(rt.stdout());
    if let Some(ended) = plain(rt.alloc(), &words, &mut input, &mut out) {
        return Ok((ended.status, ended.line));
    }
    let program = command_of(rt.alloc(), &words)?;
    let Some(mut shelf) = shelf_of(rt, &program) else {
        return Err(WordsErr::Usage);
    };
    let outcome = run(rt, rt.alloc(), &words, &mut input, &mut out, &mut shelf);
    Ok((outcome.status, outcome.line))
}

/// Says on standard error why the run ended so. A standard error that can't be written to is let be.
fn explain(rt: &HostRuntime, status: u8, line: u32) {
    let _ = match status {
        2 => eprintln!(rt; "innopool: usage"),
        3 => eprintln!(rt; "innopool: bad line {line}"),
        4 => eprintln!(rt; "innopool: read fault"),
        5 => eprintln!(rt; "innopool: write fault"),
        6 => eprintln!(rt; "innopool: device fault"),
        7 => eprintln!(rt; "innopool: out of memory"),
        _ => Ok(()),
    };
}

fn main(rt: HostRuntime) -> ExitCode {
    let (status, line) = match play(&rt) {
        Ok(ended) => ended,
        Err(WordsErr::Usage) => (2, 0),
        Err(WordsErr::OutOfMemory) => (7, 0),
    };
    explain(&rt, status, line);
    ExitCode::from(status)
}
