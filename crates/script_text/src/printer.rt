//! Prints a script.
ghost use Rattle.std.specs.Prelude.{◌≡◌, ◌++◌, ◌∷◌, ◌≤◌, [], length, map, Some, IfOk, OnOk, OnErr};
ghost use Rattle.script_text.specs.Plan.{Plan};
ghost use Rattle.script_text.specs.Text.{setting_name};
ghost use Rattle.script_text.specs.Printed.{all_settings, commands_items, threads_items, item_text, items_text, plan_text};
ghost use Rattle.script_text.specs.Within.{IsWithin};
ghost use Rattle.script_text.specs.Verdict.{IsScript};

use crate::lines::Item;
use crate::script::{Command, SCRIPT_BYTES, Script};
use page_ids::config::FIELDS;
use page_ids::{Config, Field, OutOfMemory};
use std::fmt;

/// The command's line.
impl fmt::Display for Command {
    ghost use Rattle.std.specs.Prelude.{Some};
    ghost use Rattle.std.specs.List.{join_with_byte};
    ghost use Rattle.script_text.specs.Text.{command_words};

    ghost output = { λ c. Some (join_with_byte 32 (command_words c)) };

    fn fmt<W: fmt::Write>(&self, f: &mut fmt::Formatter<W>) -> fmt::Result {
        match self {
            Command::Fix { page, now } => write!(f, "fix {page} {now}"),
            Command::Create { page, now } => write!(f, "create {page} {now}"),
            Command::Read { page, at, len } => write!(f, "read {page} {at} {len}"),
            Command::Put { page, at, bytes } => write!(f, "put {page} {at} {bytes}"),
            Command::Unfix { page } => write!(f, "unfix {page}"),
            Command::Scan { from, last, now } => write!(f, "scan {from}-{last} {now}"),
            Command::Clean { bound } => write!(f, "clean {bound}"),
            Command::Checkpoint => write!(f, "checkpoint"),
        }
    }
}

/// The word with which a script sets the field.
fn setting_name(field: Field) -> &'static str
    ensures { result.now ≡ setting_name field }
{
    match field {
        Field::Page => "page",
        Field::Instances => "instances",
        Field::Frames => "frames",
        Field::Size => "size",
        Field::Max => "max",
        Field::OldPct => "old_pct",
        Field::OldTime => "old_time",
        Field::OldMin => "old_min",
        Field::Lsn => "lsn",
        Field::First => "first",
    }
}

/// Appends the line of a setting.
fn push_setting(out: &mut Vec<u8>, field: Field, value: u64) -> Result<(), OutOfMemory>
    ensures { OnOk result (out.new.items ≡ out.old.items ++ (item_text (Item.Set field value) ++ 10 ∷ [])) }
{
    let alloc = *out.allocator();
    let name = setting_name(field);
    let line = format!(in alloc; "{name} {value}\n")?;
    out.extend_from_slice(line.as_bytes())?;
    Ok(())
}

/// Appends the line with which a thread begins.
fn push_thread(out: &mut Vec<u8>, number: u64) -> Result<(), OutOfMemory>
    ensures { OnOk result (out.new.items ≡ out.old.items ++ (item_text (Item.Thread number) ++ 10 ∷ [])) }
{
    let alloc = *out.allocator();
    let line = format!(in alloc; "thread {number}\n")?;
    out.extend_from_slice(line.as_bytes())?;
    Ok(())
}

/// Appends the line of a command.
fn push_command(out: &mut Vec<u8>, command: &Command) -> Result<(), OutOfMemory>
    ensures { OnOk result (out.new.items ≡ out.old.items ++ (item_text (Item.Does command.now) ++ 10 ∷ [])) }
{
    let alloc = *out.allocator();
    let line = format!(in alloc; "{command}\n")?;
    out.extend_from_slice(line.as_bytes())?;
    Ok(())
}

/// Appends a line for each setting.
#[tactic(auto, unfolding(crate::specs::Printed::all_settings))]
fn push_settings(out: &mut Vec<u8>, config: &Config) -> Result<(), OutOfMemory>
    ensures { OnOk result (out.new.items ≡ out.old.items ++ items_text (all_settings config.now)) }
{
    for field in &FIELDS {
        push_setting(out, *field, config.setting(*field))?;
    }
    Ok(())
}

/// Appends a line for each command.
fn push_commands(out: &mut Vec<u8>, commands: &[Command]) -> Result<(), OutOfMemory>
    ensures { OnOk result (out.new.items ≡ out.old.items ++ items_text (commands_items commands.now)) }
{
    for command in commands {
        push_command(out, command)?;
    }
    Ok(())
}

/// Appends the lines of the threads.
fn push_threads(out: &mut Vec<u8>, threads: &[Vec<Command>]) -> Result<(), OutOfMemory>
    ensures { OnOk result (out.new.items ≡ out.old.items
        ++ items_text (threads_items 1 (map (λ t. t.items) threads.now))) }
{
    let mut number = 0;
    for commands in threads {
        number += 1;
        push_thread(out, number)?;
        push_commands(out, commands.as_slice())?;
    }
    Ok(())
}

/// Appends the printed form of a script: its ten settings with their values, then its threads with their commands, a line for each.
///
/// `OutOfMemory` leaves the bytes as they were.
pub fn print_script(script: &Script, out: &mut Vec<u8>) -> Result<(), OutOfMemory>
    ensures ok { OnOk result (out.new.items ≡ out.old.items ++ plan_text script.now) }
    ensures err { OnErr result (out.new.items ≡ out.old.items) }
{
    let mut lines = Vec::new(*out.allocator());
    push_settings(&mut lines, script.config())?;
    push_threads(&mut lines, script.threads())?;
    out.extend_from_slice(lines.as_slice())?;
    Ok(())
}

/// What is printed is read back: of a script that keeps its limits, where its printed form is no longer than a script may be.
pub fn a_printed_script_reads_back()
    ensures { (plan : Plan) → IsWithin plan → length (plan_text plan) ≤ SCRIPT_BYTES → IsScript (plan_text plan) plan }
{}
