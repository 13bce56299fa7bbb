//! Scripts and their commands.
ghost use Rattle.std.specs.Prelude.{◌≡◌, map};
ghost use Rattle.script_text.specs.Plan.{commands_of};

use page_ids::{Bytes, Config, PageId};
use std::marker::Model;

/// The most bytes that a script may have.
pub const SCRIPT_BYTES: usize = 1_048_576;

/// The most calls that the commands of a script may make, those of all threads together.
pub const MOST_CALLS: u64 = 65_536;

/// The most threads that a script may have, until there are workers for more.
pub const THREADS: u64 = 1;

/// What a thread's line asks for.
#[derive(Debug, PartialEq, Eq, Drop)]
pub enum Command {
    /// Fixes the page at this moment, in milliseconds.
    Fix { page: PageId, now: u64 },
    /// Makes the page blank in a frame, whatever the disk has of it, and fixes it at this moment, in milliseconds.
    Create { page: PageId, now: u64 },
    /// Reads `len` bytes, 1 to 256, from `at` on, within the page's body.
    Read { page: PageId, at: u32, len: u32 },
    /// Writes these bytes, 1 to 256, from `at` on, within the page's body.
    Put { page: PageId, at: u32, bytes: Bytes },
    /// Gives the newest fix of the page back.
    Unfix { page: PageId },
    /// Looks at the pages of a space from `from` to the one with the number `last`, at most 4096, in rising order: each is fixed at this moment,
    /// and where its fix is granted, four bytes at 38 are read and just that fix is given back.
    Scan { from: PageId, last: u32, now: u64 },
    /// Writes dirty pages, the one with the oldest change first, until so many are written, at most 16384.
    Clean { bound: u32 },
    /// Asks for the LSN of the oldest change that isn't written yet; where each one is, for the log's end.
    Checkpoint,
}

/// The numbers of a pool, and what each thread does with it.
#[derive(Debug, Drop)]
pub struct Script {
    config: Config,
    threads: Vec<Vec<Command>>,
}

impl Model for Script {
    ghost use Rattle.std.specs.Prelude.{map};
    ghost use Rattle.script_text.specs.Plan.{Plan};

    ghost Value = { Plan };

    ghost view = { λ s. record { config = s.config; threads = map (λ t. t.items) s.threads.items } };
}

impl Script {
    /// The script of these numbers and threads; takes no memory.
    pub fn of(config: Config, threads: Vec<Vec<Command>>) -> Script
        ensures { result ≡ record { config = config; threads = map (λ t. t.items) threads.items } }
    {
        Script { config, threads }
    }

    /// The pool's numbers.
    pub fn config(&self) -> &Config
        ensures { result.now ≡ self.now.config }
    {
        &self.config
    }

    /// The commands of each thread.
    pub fn threads(&self) -> &[Vec<Command>]
        ensures { map (λ t. t.items) result.now ≡ self.now.threads }
    {
        self.threads.as_slice()
    }

    /// The commands of thread 1, in order; none where the script has no thread.
    pub fn commands(&self) -> &[Command]
        ensures { result.now ≡ commands_of self.now }
    {
        match self.threads.first() {
            None => &[],
            Some(commands) => commands.as_slice(),
        }
    }
}
