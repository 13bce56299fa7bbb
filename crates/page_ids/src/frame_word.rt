//! The word of a frame: its fixes, its latch, whether a page is resident in it, and its modify clock.
ghost use Rattle.std.specs.Prelude.{◌≡◌, ◌<◌, ◌^◌, ℕ, Some};
ghost use Rattle.page_ids.specs.FrameWord.{fixes_of, is_latched, is_resident, clock_of, packed, bit, FitsWord, HasFields, StaysPacked, word_text};
ghost use Rattle.page_ids.specs.declared.limits.TheConstants.{CLOCK_BITS, FIX_BITS};
ghost use Rattle.page_ids.specs.declared.frame_word.Word.{Word};

use std::fmt;

/// What one atomic word says of a frame.
///
/// Bits 0 to 13 count the fixes, bit 14 is the latch, bit 15 says that a page is resident, and bits 16 to 63 are the modify clock.
#[derive(Clone, Copy, Debug, PartialEq, Eq)]
pub struct Word {
    pub bits: u64,
}

impl Word {
    /// The word of these fields; the fixes are below 2^14 and the clock is below 2^48.
    pub fn of(fixes: u32, latched: bool, resident: bool, clock: u64) -> Word
        requires fixes { fixes < 2 ^ FIX_BITS }
        requires clock { clock < 2 ^ CLOCK_BITS }
        ensures { result.bits ≡ packed fixes (bit latched) (bit resident) clock }
    {
        let latch = if latched { 0x4000 } else { 0 };
        let page = if resident { 0x8000 } else { 0 };
        Word {
            bits: u64::from(fixes) + latch + page + clock * 0x1_0000,
        }
    }

    /// The fixes of the frame, below 16384 (buf0buf's `buf_fix_count`).
    pub fn fixes(self) -> u32
        ensures { result ≡ fixes_of self }
    {
        (self.bits % 0x4000) as u32
    }

    /// Whether the frame is latched for a change.
    pub fn latched(self) -> bool
        ensures { result ≡ is_latched self }
    {
        self.bits / 0x4000 % 2 == 1
    }

    /// Whether a page is resident in the frame.
    pub fn resident(self) -> bool
        ensures { result ≡ is_resident self }
    {
        self.bits / 0x8000 % 2 == 1
    }

    /// The modify clock: the place of the event that last changed the frame's page or image (buf0buf's `modify_clock`).
    pub fn clock(self) -> u64
        ensures { result ≡ clock_of self }
    {
        self.bits / 0x1_0000
    }
}

/// Clock, flags and fixes with slashes between them, as `5/R/1`; the flags are `-`, `L`, `R` or `RL`.
impl fmt::Display for Word {
    ghost output = { λ w. Some (word_text w) };

    fn fmt<W: fmt::Write>(&self, f: &mut fmt::Formatter<W>) -> fmt::Result {
        let clock = self.clock();
        let fixes = self.fixes();
        match (self.resident(), self.latched()) {
            (false, false) => write!(f, "{clock}/-/{fixes}"),
            (false, true) => write!(f, "{clock}/L/{fixes}"),
            (true, false) => write!(f, "{clock}/R/{fixes}"),
            (true, true) => write!(f, "{clock}/RL/{fixes}"),
        }
    }
}

/// The word of given fields has these fields, and each word is that of its own.
pub fn a_word_is_its_fields()
    ensures fields { (n l r c : ℕ) → FitsWord n l r c → HasFields (record { bits = packed n l r c }) n l r c }
    ensures whole { (w : Word) → packed (fixes_of w) (bit (is_latched w)) (bit (is_resident w)) (clock_of w) ≡ w.bits }
{}

/// A step on the word of given fields leaves the word of the new ones.
pub fn a_step_leaves_a_packed_word()
    ensures { (n l r c : ℕ) → FitsWord n l r c → StaysPacked n l r c }
{}
