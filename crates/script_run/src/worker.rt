//! A thread of a script: its calls, one after the other.
ghost use Rattle.page_ids.specs.declared.limits.TheConstants.{LIMIT, MOST_FIXES};
ghost use Rattle.std.specs.Prelude.{true, ◌≡◌, ◌<◌, ◌≤◌, ◌+◌, ◌*◌, ◌^◌, List, [], Ok, OnOk, length, reverse};
ghost use Rattle.std.specs.List.{AllByRecursion};
ghost use Rattle.trail.specs.Trails.{Opening};
ghost use Rattle.trail.specs.declared.event.Event.{Event};
ghost use Rattle.script_text.specs.Within.{IsInRange};
ghost use Rattle.script_text.specs.Grammar.{calls_of, calls_in};
ghost use Rattle.redo_mark.specs.Logs.{Seen, IsLater};
ghost use Rattle.trail.specs.Dirt.{log_end};
ghost use Rattle.desk.specs.Base.{Opened};
ghost use Rattle.desk.specs.Changes.{LeavesDesk};
ghost use Rattle.script_run.specs.Openings.{Start};
ghost use Rattle.script_run.specs.Work.{HasPlayed, StandsBehind, IsBehindIt, Does, Along, IsWorkerReady, Progress, Ending, Worked};
ghost use Rattle.script_run.specs.Several.{AlongFew, Done};
ghost use Rattle.script_run.specs.Todo.{is_one_call};
ghost use Rattle.script_run.specs.Workers.{working};

use crate::pass::Pass;
use desk::Desk;
use frame_words::PlainFrames;
use page_disk::PageDisk;
use page_ids::OutOfMemory;
use redo_mark::{Redo, RedoDisk};
use script_text::script::Command;
use std::alloc::Global;

/// Makes the one call of a command.
fn call<D: PageDisk, R: RedoDisk>(
    pass: &mut Pass,
    alloc: Global,
    desk: &mut Desk<D>,
    frames: &mut PlainFrames,
    redo: &mut Redo<R>,
    command: &Command,
) -> Result<(), OutOfMemory>
    requires places { desk.old.state.config.first + 2 * length desk.old.state.history + 16385 ≤ LIMIT }
    requires number { pass.old.next + 1 < 2 ^ 32 }
    requires ready { IsWorkerReady D.seen desk.old.state frames.old (reverse pass.old.fixed.items) }
    requires range { IsInRange desk.old.state.config.page command.now }
    requires one { is_one_call command.now ≡ true }
    requires known { log_end desk.old.state.history ≤ redo.old.seen.end }
    ensures along { OnOk result (Along D.seen 1
        desk.old.state desk.new.state frames.old frames.new redo.old.seen redo.new.seen (working pass.old) (working pass.new)) }
    ensures done { OnOk result ((o : Opening) (start : Start) (past : List Event)
        → HasPlayed D.seen o start desk.old.state redo.old.seen (working pass.old) past []
        → StandsBehind D.seen o start desk.old.state frames.old
        → Does D.seen o start desk.new.state redo.new.seen (working pass.new) past command.now) }
    ensures opening { redo.new.opening ≡ redo.old.opening }
{
    match command {
        Command::Fix { page, now } => pass.fix(desk, frames, redo, *page, *now),
        Command::Create { page, now } => pass.create(desk, frames, redo, *page, *now),
        Command::Read { page, at, len } => pass.read(alloc, desk, frames, *page, *at, *len),
        Command::Put { page, at, bytes } => pass.put(
            desk,
            frames,
            redo,
            *page,
            *at,
            bytes.as_slice(),
        ),
        Command::Unfix { page } => pass.unfix(desk, frames, *page),
        Command::Clean { bound } => pass.clean(desk, frames, redo, *bound),
        Command::Checkpoint => pass.checkpoint(desk, redo),
        Command::Scan { .. } => unreachable!(),
    }
}

/// Does one command.
fn step<D: PageDisk, R: RedoDisk>(
    pass: &mut Pass,
    alloc: Global,
    desk: &mut Desk<D>,
    frames: &mut PlainFrames,
    redo: &mut Redo<R>,
    command: &Command,
) -> Result<(), OutOfMemory>
    requires places { desk.old.state.config.first + 2 * length desk.old.state.history + 32770 * calls_of 1 command.now ≤ LIMIT }
    requires number { pass.old.next + calls_of 1 command.now < 2 ^ 32 }
    requires ready { IsWorkerReady D.seen desk.old.state frames.old (reverse pass.old.fixed.items) }
    requires range { IsInRange desk.old.state.config.page command.now }
    requires known { log_end desk.old.state.history ≤ redo.old.seen.end }
    ensures along { OnOk result (AlongFew D.seen (calls_of 1 command.now)
        desk.old.state desk.new.state frames.old frames.new redo.old.seen redo.new.seen (working pass.old) (working pass.new)) }
    ensures done { OnOk result ((o : Opening) (start : Start) (past : List Event)
        → HasPlayed D.seen o start desk.old.state redo.old.seen (working pass.old) past []
        → StandsBehind D.seen o start desk.old.state frames.old
        → Done D.seen o start desk.new.state redo.new.seen (working pass.new) past command.now) }
    ensures opening { redo.new.opening ≡ redo.old.opening }
{
    match command {
        Command::Scan { from, last, now } => pass.scan(
            alloc, desk, frames, redo, *from, *last, *now,
        ),
        _ => call(pass, alloc, desk, frames, redo, command),
    }
}

/// Does the commands, one after the other.
fn do_all<D: PageDisk, R: RedoDisk>(
    pass: &mut Pass,
    alloc: Global,
    desk: &mut Desk<D>,
    frames: &mut PlainFrames,
    redo: &mut Redo<R>,
    commands: &[Command],
) -> Result<(), OutOfMemory>
    requires places { desk.old.state.config.first + 2 * length desk.old.state.history + 32770 * calls_in 1 commands.now ≤ LIMIT }
    requires number { pass.old.next + calls_in 1 commands.now < 2 ^ 32 }
    requires ready { IsWorkerReady D.seen desk.old.state frames.old (reverse pass.old.fixed.items) }
    requires ranges { AllByRecursion (IsInRange desk.old.state.config.page) commands.now }
    requires known { log_end desk.old.state.history ≤ redo.old.seen.end }
    ensures along { OnOk result (AlongFew D.seen (calls_in 1 commands.now)
        desk.old.state desk.new.state frames.old frames.new redo.old.seen redo.new.seen (working pass.old) (working pass.new)) }
    ensures done { OnOk result ((o : Opening) (start : Start) (past : List Event)
        → HasPlayed D.seen o start desk.old.state redo.old.seen (working pass.old) past []
        → StandsBehind D.seen o start desk.old.state frames.old
        → Progress D.seen o start desk.new.state redo.new.seen (working pass.new) past commands.now []) }
    ensures opening { redo.new.opening ≡ redo.old.opening }
{
    for command in commands {
        step(pass, alloc, desk, frames, redo, command)?;
    }
    Ok(())
}

/// Gives back the fixes that the pass holds, the newest first.
fn give_back_all<D: PageDisk>(
    pass: &mut Pass,
    desk: &Desk<D>,
    frames: &mut PlainFrames,
) -> Result<(), OutOfMemory>
    requires places { desk.now.state.config.first + length desk.now.state.history < 2 ^ 64 }
    requires number { pass.old.next + length pass.old.fixed.items < 2 ^ 32 }
    requires ready { IsWorkerReady D.seen desk.now.state frames.old (reverse pass.old.fixed.items) }
    ensures ready { OnOk result (IsWorkerReady D.seen desk.now.state frames.new []) }
    ensures behind { OnOk result ((o : Opened) → IsBehindIt D.seen o desk.now.state frames.old
        → IsBehindIt D.seen o desk.now.state frames.new) }
    ensures pass { OnOk result (pass.new.pass ≡ pass.old.pass) }
    ensures done { OnOk result ((o : Opening) (start : Start) (log : Seen) (past : List Event) (commands : List Command)
        → Ending D.seen o start desk.now.state log (working pass.old) past commands
        → Worked D.seen o start desk.now.state log (working pass.new) past commands) }
{
    while !pass.fixed.is_empty() {
        pass.give_back(desk, frames)?;
    }
    Ok(())
}

/// Does the commands of a thread by its pass, and gives back the fixes that the pass then holds.
pub fn work<D: PageDisk, R: RedoDisk>(
    pass: &mut Pass,
    alloc: Global,
    desk: &mut Desk<D>,
    frames: &mut PlainFrames,
    redo: &mut Redo<R>,
    commands: &[Command],
) -> Result<(), OutOfMemory>
    requires places { desk.old.state.config.first + 2 * length desk.old.state.history + 32770 * calls_in 1 commands.now ≤ LIMIT }
    requires number { pass.old.next + calls_in 1 commands.now + MOST_FIXES < 2 ^ 32 }
    requires new { length pass.old.fixed.items ≡ 0 }
    requires ready { IsWorkerReady D.seen desk.old.state frames.old (reverse pass.old.fixed.items) }
    requires ranges { AllByRecursion (IsInRange desk.old.state.config.page) commands.now }
    requires known { log_end desk.old.state.history ≤ redo.old.seen.end }
    ensures left { OnOk result (LeavesDesk D.seen desk.old.state desk.new.state) }
    ensures grown { OnOk result (length desk.new.state.history ≤ length desk.old.state.history + 16385 * calls_in 1 commands.now) }
    ensures ready { OnOk result (IsWorkerReady D.seen desk.new.state frames.new []) }
    ensures behind { OnOk result ((o : Opened) → IsBehindIt D.seen o desk.old.state frames.old
        → IsBehindIt D.seen o desk.new.state frames.new) }
    ensures log { OnOk result (IsLater redo.old.seen redo.new.seen) }
    ensures known { OnOk result (log_end desk.new.state.history ≤ redo.new.seen.end) }
    ensures opening { redo.new.opening ≡ redo.old.opening }
    ensures pass { OnOk result (pass.new.pass ≡ pass.old.pass) }
    ensures done { OnOk result ((o : Opening) (start : Start) (past : List Event)
        → HasPlayed D.seen o start desk.old.state redo.old.seen (working pass.old) past []
        → StandsBehind D.seen o start desk.old.state frames.old
        → Worked D.seen o start desk.new.state redo.new.seen (working pass.new) past commands.now) }
{
    do_all(pass, alloc, desk, frames, redo, commands)?;
    give_back_all(pass, desk, frames)
}
