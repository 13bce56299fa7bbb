//! What the program may be called to do.
ghost use Rattle.std.specs.Prelude.{◌≡◌, string_bytes};

use std::marker::Model;

/// A file's name, as a word of the command line gives it; seen by contracts as its text.
#[derive(Debug, Drop)]
pub struct Name {
    text: String,
}

impl Model for Name {
    ghost use Rattle.std.specs.Prelude.{List, ℕ, string_bytes};

    ghost Value = { List ℕ };

    ghost view = { λ n. string_bytes n.text };
}

impl Name {
    /// The name of a text; takes no memory.
    pub fn of(text: String) -> Name
        ensures { result ≡ string_bytes text }
    {
        Name { text }
    }

    /// The text, lent.
    pub fn as_str(&self) -> &str
        ensures { result.now ≡ self.now }
    {
        self.text.as_str()
    }
}

/// What the program is called to do.
#[derive(Debug, Drop)]
pub enum Program {
    /// Runs the script from standard input on the tablespace `file` as this space, with the log `log`.
    Run { space: u32, file: Name, log: Name },
    /// Reads a script from standard input, and prints it in its printed form.
    Check,
}

/// Why words call for nothing.
#[derive(Clone, Copy, Debug, PartialEq, Eq)]
pub enum WordsErr {
    /// The words are no command line.
    Usage,
    OutOfMemory,
}
