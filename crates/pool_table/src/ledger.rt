//! The steps on plain data, without a table: what each of them decides.
ghost use Rattle.std.specs.Prelude.{◌≡◌, ◌≢◌, ◌+◌, ◌-◌, ◌<◌, ◌++◌, ◌^◌, true, IfNone, IfSome, IfOk, OnErr, ⊤, vec_capacity, vec_len};
ghost use Rattle.pool_table.specs.Ledger.{IsTurnOf, advanced, given_part, IsNewShare, taken_by};

use std::alloc::AllocError;

/// The word of a turn that nobody has.
pub const TURN_FREE: u64 = 0;

/// The two words of a table: the place of the last entry, and whose turn it is.
#[derive(Clone, Copy, Debug, PartialEq, Eq)]
pub struct Mark {
    pub last: u64,
    pub turn: u64,
}

impl Mark {
    /// The place of a caller's next entry, which is marked then. Only the turn's holder has one.
    pub fn append(&mut self, caller: u32) -> Option<u64>
        requires room { self.old.last + 1 < 2 ^ 64 }
        ensures some { IfSome result (λ place. IsTurnOf self.old caller × (place ≡ self.old.last + 1) × (self.new ≡ advanced self.old)) }
        ensures none { IfNone result (¬ IsTurnOf self.old caller × (self.new ≡ self.old)) }
    {
        if self.turn == u64::from(caller) + 1 {
            self.last += 1;
            Some(self.last)
        } else {
            None
        }
    }

    /// The place of a receipt: that of the last entry.
    pub fn note(&self) -> u64
        ensures { result ≡ self.now.last }
    {
        let place = self.last;
        place
    }

    /// A caller takes the turn where nobody has it, and is told whether it did.
    pub fn take(&mut self, caller: u32) -> bool
        ensures taken { result ≡ true → (self.old.turn ≡ 0) × (self.new ≡ taken_by self.old caller) }
        ensures left { result ≢ true → (self.old.turn ≢ 0) × (self.new ≡ self.old) }
    {
        if self.turn == TURN_FREE {
            self.turn = u64::from(caller) + 1;
            true
        } else {
            false
        }
    }
}

/// What a pass has of the pool: its parts of the right to make passes, its number, and how many of its fixes are open.
#[derive(Clone, Copy, Debug, PartialEq, Eq)]
pub struct Share {
    pub parts: u32,
    pub number: u32,
    pub fixes: u32,
}

impl Share {
    /// A part of it, for the pass with this number, which has no open fix.
    pub fn split(&mut self, number: u32) -> Share
        requires { 0 < self.old.parts }
        ensures new { IsNewShare result number }
        ensures left { self.new ≡ given_part self.old }
    {
        self.parts -= 1;
        Share {
            parts: 1,
            number,
            fixes: 0,
        }
    }
}

/// The numbers of the accounts that a pass has.
#[derive(Debug, Drop)]
pub struct Accounts {
    pub numbers: Vec<u32>,
}

impl Accounts {
    /// Takes in all accounts of another.
    pub fn join(&mut self, other: Accounts) -> Result<(), AllocError>
        ensures ok { IfOk result (λ _. self.new.numbers.items ≡ self.old.numbers.items ++ other.numbers.items) }
        ensures err { OnErr result (self.new.numbers.items ≡ self.old.numbers.items) }
        ensures room { vec_len self.old.numbers + vec_len other.numbers < vec_capacity self.old.numbers → IfOk result (λ _. ⊤) }
    {
        let Accounts { numbers: mut more } = other;
        self.numbers.append(&mut more)
    }
}
