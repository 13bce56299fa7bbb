//! The words of the command line, read with `clap`.
ghost use Rattle.std.specs.Prelude.{◌≡◌, ℕ, List, map, IfOk, MatchResult, Err, Ok, Some, None, string_bytes, option_map, false, ◌↔◌};
ghost use Rattle.std.specs.List.{list_all};
ghost use Rattle.clap.specs.Words.{app_of, subcommand_rows_of, rows_of, found_of, rule_of, first_of, kind_of};
ghost use Rattle.clap.specs.declared.builder.Command.TheViews.{out-Command as fields_of};
ghost use Rattle.script_text.specs.CommandLine.{is_word, IsCalled};
ghost use Rattle.script_text.specs.Commands.{commands, run_command, check_command, wanted, found, run_found};

use crate::program::{Name, Program, WordsErr};
use clap::error::ErrorKind;
use clap::{Arg, ArgMatches, Command, Error};
use page_ids::numerals::number_u32;
use std::alloc::{AllocError, Global};

/// Whether a word is not empty and does not begin with a dash.
fn is_word(word: &[u8]) -> bool
    ensures { result ≡ is_word word.now }
{
    match word {
        [] => false,
        [first, ..] => *first != b'-',
    }
}

/// Whether each of them is such a word.
fn are_words(words: &[String]) -> bool
    ensures { result ≡ list_all is_word (map string_bytes words.now) }
{
    for word in words {
        if !is_word(word.as_bytes()) {
            return false;
        }
    }
    true
}

/// A word that has to stand there.
fn wanted<'a>(alloc: Global, id: &'a str) -> Arg<'a>
    ensures rule { rule_of result ≡ wanted id.entry.now }
    ensures local { result.global ≡ false }
{
    Arg::new(alloc, id).required(true)
}

/// `run SPACE FILE LOG`.
fn run_command<'a>(alloc: Global) -> Result<Command<'a>, AllocError>
    ensures { IfOk result (λ command. (app_of command ≡ run_command) × ((fields_of command).has_globals ≡ false)) }
{
    Command::new(alloc, "run")
        .arg(wanted(alloc, "space"))?
        .arg(wanted(alloc, "file"))?
        .arg(wanted(alloc, "log"))
}

/// The program's commands; help and version are off.
fn commands<'a>(alloc: Global) -> Result<Command<'a>, AllocError>
    ensures { IfOk result (λ command. app_of command ≡ commands) }
{
    let run = run_command(alloc)?;
    let check = Command::new(alloc, "check");
    Command::new(alloc, "innopool")
        .no_binary_name(true)
        .disable_help_flag(true)
        .disable_version_flag(true)
        .disable_help_subcommand(true)
        .subcommand_required(true)
        .subcommand(run)?
        .subcommand(check)
}

fn named(alloc: Global, word: &str) -> Result<Name, AllocError>
    ensures { IfOk result (λ name. name ≡ word.now) }
{
    let text = String::from_str(alloc, word)?;
    Ok(Name::of(text))
}

/// The word that was found for an id.
fn word_of<'a>(given: &ArgMatches<'a>, id: &str) -> Option<&'a str>
    ensures { option_map (λ s. s.now) result ≡ first_of id.now (rows_of (found_of given.now)) }
{
    given.get_str(id)
}

/// What the words behind `run` call for.
fn run_found(alloc: Global, given: &ArgMatches<'_>) -> Result<Option<Program>, AllocError>
    ensures { IfOk result (λ program. program ≡ run_found (rows_of (found_of given.now))) }
{
    let Some(space) = word_of(given, "space") else {
        return Ok(None);
    };
    let Some(space) = number_u32(space.as_bytes()) else {
        return Ok(None);
    };
    let Some(file) = word_of(given, "file") else {
        return Ok(None);
    };
    let Some(log) = word_of(given, "log") else {
        return Ok(None);
    };
    let file = named(alloc, file)?;
    let log = named(alloc, log)?;
    Ok(Some(Program::Run { space, file, log }))
}

/// What the command that was found calls for.
fn found(alloc: Global, matches: &ArgMatches<'_>) -> Result<Option<Program>, AllocError>
    ensures { IfOk result (λ program. program ≡ found (subcommand_rows_of matches.now)) }
{
    let Some((name, given)) = matches.subcommand() else {
        return Ok(None);
    };
    if name == "run" {
        run_found(alloc, given)
    } else if name == "check" {
        Ok(Some(Program::Check))
    } else {
        Ok(None)
    }
}

/// Why words were not taken.
fn refusal(error: &Error) -> WordsErr
    ensures { (result ≡ WordsErr.OutOfMemory) ↔ (kind_of error.now ≡ ErrorKind.OutOfMemory) }
{
    match error.kind() {
        ErrorKind::OutOfMemory => WordsErr::OutOfMemory,
        _ => WordsErr::Usage,
    }
}

/// What the words behind the program's name call for.
///
/// | words | program |
/// |---|---|
/// | `run SPACE FILE LOG` | `Run`; SPACE is a decimal number below 2^32 |
/// | `check` | `Check` |
///
/// No word is empty or begins with a dash, and a number has no sign and no leading zero. All other words are `Usage`.
pub fn command_of(alloc: Global, words: &[String]) -> Result<Program, WordsErr>
    ensures called { IfOk result (λ program. IsCalled (map string_bytes words.now) program) }
    ensures only { (p : Program) → IsCalled (map string_bytes words.now) p
        → MatchResult result (λ program. program ≡ p) (λ e. e ≡ WordsErr.OutOfMemory) }
    ensures usage { result ≡ Err WordsErr.Usage → (p : Program) → IsCalled (map string_bytes words.now) p → ⊥ }
{
    if !are_words(words) {
        return Err(WordsErr::Usage);
    }
    let Ok(commands) = commands(alloc) else {
        return Err(WordsErr::OutOfMemory);
    };
    let matches = match commands.try_get_matches_from(words) {
        Ok(matches) => matches,
        Err(error) => return Err(refusal(&error)),
    };
    match found(alloc, &matches) {
        Ok(Some(program)) => Ok(program),
        Ok(None) => Err(WordsErr::Usage),
        Err(_) => Err(WordsErr::OutOfMemory),
    }
}
