//! What the lines of a script said so far.
ghost use Rattle.std.specs.Prelude.{◌≡◌, ◌<◌, ◌^◌, ◌&&◌, nat_le, map, vec_len, IfOk, OnOk, Some, None, true, if◌then◌else◌};
ghost use Rattle.page_ids.specs.Content.{is_range};
ghost use Rattle.page_ids.specs.Size.{is_page_size, page_bytes};
ghost use Rattle.page_ids.specs.Fields.{is_settable};
ghost use Rattle.script_text.specs.Grammar.{place_of, size_of, with_setting, is_in_range, calls_of, with_command, step, usual, nothing_said};
ghost use Rattle.script_text.specs.Verdict.{plan_of};

use crate::lines::Item;
use crate::script::{Command, MOST_CALLS, Script, THREADS};
use page_ids::{Config, Field, PageSize};
use std::alloc::{AllocError, Global};
use std::marker::Model;

/// A script in the making.
#[derive(Debug, Drop)]
pub struct Draft {
    config: Config,
    settings: [bool; 10],
    threads: Vec<Vec<Command>>,
    calls: u32,
}

impl Model for Draft {
    ghost use Rattle.std.specs.Prelude.{map};
    ghost use Rattle.script_text.specs.Grammar.{SoFar};

    ghost Value = { SoFar };

    ghost view = { λ d. record { config = d.config; settings = d.settings; threads = map (λ t. t.items) d.threads.items; calls = d.calls } };
}

/// The numbers of a pool where a script sets none.
fn usual() -> Config
    ensures { result ≡ usual }
{
    Config {
        page: PageSize::Kib16,
        instances: 1,
        frames: 8192,
        size: 134217728,
        max: 2,
        old_pct: 37,
        old_time: 1000,
        old_min: 512,
        lsn: 8192,
        first: 0,
    }
}

fn place(setting: Field) -> usize
    ensures place { result ≡ place_of setting }
    ensures few { result < 10 }
{
    match setting {
        Field::Page => 0,
        Field::Instances => 1,
        Field::Frames => 2,
        Field::Size => 3,
        Field::Max => 4,
        Field::OldPct => 5,
        Field::OldTime => 6,
        Field::OldMin => 7,
        Field::Lsn => 8,
        Field::First => 9,
    }
}

fn page_size(bytes: u64) -> PageSize
    requires range { is_page_size bytes ≡ true }
    ensures { result ≡ size_of bytes }
{
    match PageSize::of(bytes as u32) {
        Some(size) => size,
        None => unreachable!(),
    }
}

fn with_setting(config: Config, setting: Field, n: u64) -> Config
    requires range { is_settable setting n ≡ true }
    ensures { result ≡ with_setting config setting n }
{
    match setting {
        Field::Page => Config {
            page: page_size(n),
            ..config
        },
        Field::Instances => Config {
            instances: n as u16,
            ..config
        },
        Field::Frames => Config {
            frames: n as u32,
            ..config
        },
        Field::Size => Config { size: n, ..config },
        Field::Max => Config {
            max: n as u32,
            ..config
        },
        Field::OldPct => Config {
            old_pct: n as u32,
            ..config
        },
        Field::OldTime => Config {
            old_time: n,
            ..config
        },
        Field::OldMin => Config {
            old_min: n as u32,
            ..config
        },
        Field::Lsn => Config { lsn: n, ..config },
        Field::First => Config { first: n, ..config },
    }
}

/// Whether `len` bytes from `at` on are at most 256 and a range of the body of a page of this size.
fn is_in_body(size: PageSize, at: u32, len: u64) -> bool
    ensures { result ≡ (nat_le len 256 && is_range (page_bytes size) at len) }
{
    let end = u64::from(size.bytes()) - 8;
    len <= 256 && 0 < len && 38 <= at && u64::from(at) + len <= end
}

fn is_in_range(size: PageSize, command: &Command) -> bool
    ensures { result ≡ is_in_range size command.now }
{
    match command {
        Command::Fix { .. } => true,
        Command::Create { .. } => true,
        Command::Read { at, len, .. } => is_in_body(size, *at, u64::from(*len)),
        Command::Put { at, bytes, .. } => {
            let len = bytes.as_slice().len() as u64;
            is_in_body(size, *at, len)
        }
        Command::Unfix { .. } => true,
        Command::Scan { from, last, .. } => from.page <= *last && *last - from.page < 4096,
        Command::Clean { bound } => *bound <= 16384,
        Command::Checkpoint => true,
    }
}

/// How many calls the command makes of so many instances.
fn calls_of(instances: u16, command: &Command) -> u64
    ensures calls { result ≡ calls_of instances command.now }
    ensures few { result < 2 ^ 36 }
{
    match command {
        Command::Fix { .. } => 1,
        Command::Create { .. } => 1,
        Command::Read { .. } => 1,
        Command::Put { .. } => 1,
        Command::Unfix { .. } => 1,
        Command::Scan { from, last, .. } => 3 * (u64::from(last.saturating_sub(from.page)) + 1),
        Command::Clean { .. } => u64::from(instances),
        Command::Checkpoint => u64::from(instances),
    }
}

/// Puts the command at the end of the last thread.
fn push_command(threads: &mut Vec<Vec<Command>>, command: Command) -> Result<(), AllocError>
    requires some { 0 < vec_len threads.old }
    ensures { OnOk result
        (map (λ t. t.items) threads.new.items ≡ with_command (map (λ t. t.items) threads.old.items) command) }
{
    let last = threads.len() - 1;
    let thread = &mut threads[last];
    thread.push(command)?;
    Ok(())
}

impl Draft {
    /// Nothing was said.
    pub fn new(alloc: Global) -> Draft
        ensures { result ≡ nothing_said }
    {
        Draft {
            config: usual(),
            settings: [false; 10],
            threads: Vec::new(alloc),
            calls: 0,
        }
    }

    fn set(&mut self, setting: Field, n: u64) -> bool
        ensures { step self.old (Item.Set setting n) ≡ (if result then Some self.new else None) }
    {
        let at = place(setting);
        if !self.threads.is_empty() || !setting.is_settable(n) || self.settings[at] {
            return false;
        }
        self.config = with_setting(self.config, setting, n);
        self.settings[at] = true;
        true
    }

    fn thread(&mut self, number: u64) -> Result<bool, AllocError>
        ensures { IfOk result (λ good.
            step self.old (Item.Thread number) ≡ (if good then Some self.new else None)) }
    {
        if number != self.threads.len() as u64 + 1 || number > THREADS {
            return Ok(false);
        }
        let alloc = *self.threads.allocator();
        self.threads.push(Vec::new(alloc))?;
        Ok(true)
    }

    fn command(&mut self, command: Command) -> Result<bool, AllocError>
        ensures { IfOk result (λ good.
            step self.old (Item.Does command) ≡ (if good then Some self.new else None)) }
    {
        let calls = u64::from(self.calls) + calls_of(self.config.instances, &command);
        if self.threads.is_empty()
            || !is_in_range(self.config.page, &command)
            || calls > MOST_CALLS
        {
            return Ok(false);
        }
        push_command(&mut self.threads, command)?;
        self.calls = calls as u32;
        Ok(true)
    }

    /// Takes what a line says, and answers whether it may stand there. After want of memory the draft is of no more use.
    pub fn take(&mut self, item: Item) -> Result<bool, AllocError>
        ensures { IfOk result (λ good. step self.old item ≡ (if good then Some self.new else None)) }
    {
        match item {
            Item::Nothing => Ok(true),
            Item::Set { setting, value } => Ok(self.set(setting, value)),
            Item::Thread { number } => self.thread(number),
            Item::Does { command } => self.command(command),
        }
    }

    /// The script; takes no memory.
    pub fn finish(self) -> Script
        ensures { result ≡ plan_of self }
    {
        let Draft {
            config,
            threads,
            ..
        } = self;
        Script::of(config, threads)
    }
}
