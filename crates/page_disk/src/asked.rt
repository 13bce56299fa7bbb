//! How a shelf was called.
ghost use Rattle.std.specs.Prelude.{◌≡◌, ◌≢◌, ◌⊎◌, ◌↔◌, IsTrue, Some, unwrap_or};

use page_ids::Config;
use std::marker::Model;

/// How a shelf was called: the Config of its first call, the number of its calls for a disk, whether its log was asked for, and whether it
/// strayed.
#[derive(Debug, Drop)]
pub struct Asked {
    config: Option<Config>,
    disks: u64,
    log: bool,
    strayed: bool,
}

impl Model for Asked {
    ghost use Rattle.page_disk.specs.Shelves.{Asked};

    ghost Value = { Asked };

    ghost view = { λ a. record { config = a.config; disks = a.disks; log = a.log; strayed = a.strayed } };
}

impl Asked {
    ghost use Rattle.page_disk.specs.Shelves.{unasked, IsAskedFor, IsAskedForLog};

    /// No call so far.
    pub fn new() -> Asked
        ensures { result ≡ unasked }
    {
        Asked {
            config: None,
            disks: 0,
            log: false,
            strayed: false,
        }
    }

    /// Notes a call's Config, and whether the call strays by it or by coming behind the log.
    fn note_config(&mut self, config: &Config)
        ensures first { self.new.config ≡ Some (unwrap_or self.old.config config.now) }
        ensures rest { (self.new.disks ≡ self.old.disks) × (self.new.log ≡ self.old.log) }
        ensures strayed { IsTrue self.new.strayed
            ↔ (IsTrue self.old.strayed ⊎ (config.now ≢ unwrap_or self.old.config config.now)
            ⊎ IsTrue self.old.log) }
    {
        let first = self.config.unwrap_or(*config);
        self.config = Some(first);
        self.strayed = self.strayed || *config != first || self.log;
    }

    /// Notes that the disk of an instance is asked for.
    pub fn note(&mut self, config: &Config, instance: u16)
        ensures { IsAskedFor config.now instance self.old self.new }
    {
        self.note_config(config);
        self.strayed = self.strayed || u64::from(instance) != self.disks;
        self.disks = self.disks.saturating_add(1);
    }

    /// Notes that the log is asked for.
    pub fn note_log(&mut self, config: &Config)
        ensures { IsAskedForLog config.now self.old self.new }
    {
        self.note_config(config);
        self.log = true;
    }
}
