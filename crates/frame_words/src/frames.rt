//! What the desk may do to frames.
ghost use Rattle.std.specs.Prelude.{◌≡◌, ◌<◌, ◌≤◌, ◌+◌, ◌^◌, ℕ, false, true, None, Some, Option, OnOk, IfErr, IfSome, IsSome, length};
ghost use Rattle.page_ids.specs.FrameWord.{fixes_of, is_latched};
ghost use Rattle.page_ids.specs.Content.{Content};
ghost use Rattle.trail.specs.History.{change};
ghost use Rattle.frame_words.specs.Rows.{claimed_row, published_row, latched_row, unlatched_row, stamped_row, lifted_row, laid_row};
ghost use Rattle.frame_words.specs.Seen.{FramesSeen, row_at, with_row, Finds, noted, visited, left, is_owed, KeepsRoom};
ghost use Rattle.frame_words.specs.Appends.{appended, fixed_frame};
ghost use Rattle.frame_words.specs.Conditions.{MayAppend, IsUnlatched, IsUntouched, IsSteady, IsUncovered, FindsUnfixed, FindsUnlatched, MayPublish, IsLatched, MayUnlatch, IsVisited, MayLay};

use page_ids::{Image, PageId, Word};
use trail::Entry;

/// Frames under one holder.
///
/// A call leaves what is seen of every other frame. Each holder sees its own visits and latches, and of each frame the residence, the
/// clock, the page and whether there is an image. What else is seen is told at will: all fixes, the history, values, whose turn it is.
/// What other threads may change meanwhile is not told: the fixes, and in a resident frame that this holder hasn't latched the latch and
/// the image's content.
pub trait Frames {
    ghost use Rattle.std.specs.Prelude.{◌≡◌, ◌<◌, ◌≤◌, ◌+◌, ◌^◌, ℕ, false, true, None, Some, Option, OnOk, IfErr, IfSome, IsSome, length};
    ghost use Rattle.page_ids.specs.declared.limits.TheConstants.{CLOCK_BITS};
    ghost use Rattle.page_ids.specs.FrameWord.{fixes_of, is_latched};
    ghost use Rattle.trail.specs.History.{change};
    ghost use Rattle.frame_words.specs.Rows.{claimed_row, published_row, latched_row, unlatched_row, stamped_row, lifted_row, laid_row};
    ghost use Rattle.frame_words.specs.Seen.{FramesSeen, row_at, with_row, Finds, noted, visited, left, is_owed, KeepsRoom};
    ghost use Rattle.frame_words.specs.Appends.{appended, fixed_frame};
    ghost use Rattle.frame_words.specs.Conditions.{MayAppend, IsUnlatched, IsUntouched, IsSteady, IsUncovered, FindsUnfixed, FindsUnlatched, MayPublish, IsLatched, MayUnlatch, IsVisited, MayLay};
    ghost use Rattle.page_ids.specs.Content.{Content};

    ghost seen: { Self → FramesSeen };

    /// For how many more fixes there is room in the word of a frame.
    ghost room: { Self → ℕ → ℕ };

    /// How many frames there are.
    fn frames(&self) -> u32
        ensures { result ≡ length (seen self.now).rows };

    /// Appends an entry to the history that is told; takes no memory. A fix makes the visit of its frame a held fix.
    fn append(&mut self, entry: &Entry)
        requires may { MayAppend (seen self.old) entry.now }
        ensures seen { seen self.new ≡ appended (seen self.old) entry.now }
        ensures room { fixed_frame entry.now.kind ≡ None → KeepsRoom (room self.old) (room self.new) };

    /// The word of a frame.
    fn look(&mut self, frame: u32) -> Word
        requires free { IsUntouched (seen self.old) frame }
        requires steady { IsSteady (seen self.old) frame }
        ensures word { Finds (seen self.old) frame result }
        ensures seen { seen self.new ≡ noted (seen self.old) frame result }
        ensures room { KeepsRoom (room self.old) (room self.new) };

    /// Takes the page's frame for this holder alone: from then on it isn't resident, and keeps its clock. It is refused exactly where the
    /// word found has fixes.
    fn claim(&mut self, frame: u32) -> Result<(), Word>
        requires free { IsUntouched (seen self.old) frame }
        requires resident { (row_at (seen self.old) frame).resident ≡ true }
        ensures ok { OnOk result ((image : Option (Option Content)) × IsUncovered (seen self.old) frame image
            × (seen self.new ≡ with_row (seen self.old) frame (claimed_row (row_at (seen self.old) frame) image))) }
        ensures unfixed { OnOk result (FindsUnfixed (seen self.old) frame) }
        ensures err { IfErr result (λ word. Finds (seen self.old) frame word × 0 < fixes_of word × (seen self.new ≡ noted (seen self.old) frame word)) }
        ensures room { KeepsRoom (room self.old) (room self.new) };

    /// The page is resident in the frame at this clock; visits stay.
    fn publish(&mut self, frame: u32, page: PageId, clock: u64)
        requires may { MayPublish (seen self.old) frame page clock }
        ensures seen { seen self.new ≡ with_row (seen self.old) frame (published_row (row_at (seen self.old) frame) page clock) }
        ensures room { KeepsRoom (room self.old) (room self.new) };

    /// Adds one fix, this holder's visit. The word is that before it.
    fn visit(&mut self, frame: u32) -> Word
        requires inside { frame < length (seen self.old).rows }
        requires none { (seen self.old).visit ≡ None }
        requires unlatched { IsUnlatched (seen self.old) frame }
        requires steady { IsSteady (seen self.old) frame }
        requires room { 0 < room self.old frame }
        ensures word { Finds (seen self.old) frame result }
        ensures seen { seen self.new ≡ visited (seen self.old) frame result }
        ensures room { is_owed (seen self.old) frame ≡ false → KeepsRoom (room self.old) (room self.new) };

    /// Takes this holder's visit back. The word is that before it.
    fn leave(&mut self, frame: u32) -> Word
        requires inside { frame < length (seen self.old).rows }
        requires visit { (seen self.old).visit ≡ Some frame }
        requires unlatched { IsUnlatched (seen self.old) frame }
        requires steady { IsSteady (seen self.old) frame }
        ensures word { Finds (seen self.old) frame result }
        ensures seen { seen self.new ≡ left (seen self.old) frame result }
        ensures room { KeepsRoom (room self.old) (room self.new) };

    /// Takes the latch. It is refused exactly where the latch was found set.
    fn latch(&mut self, frame: u32) -> Result<(), Word>
        requires inside { frame < length (seen self.old).rows }
        requires unlatched { IsUnlatched (seen self.old) frame }
        ensures ok { OnOk result ((image : Option (Option Content)) × IsUncovered (seen self.old) frame image
            × (seen self.new ≡ with_row (seen self.old) frame (latched_row (row_at (seen self.old) frame) image))) }
        ensures unlatched { OnOk result (FindsUnlatched (seen self.old) frame) }
        ensures err { IfErr result (λ word. Finds (seen self.old) frame word × (is_latched word ≡ true) × (seen self.new ≡ noted (seen self.old) frame word)) }
        ensures room { KeepsRoom (room self.old) (room self.new) };

    /// Sets the clock of a frame that is latched.
    fn stamp(&mut self, frame: u32, clock: u64)
        requires latch { IsLatched (seen self.old) frame }
        requires early { clock < 2 ^ CLOCK_BITS }
        requires changed { IfSome (seen self.old).history (λ h. clock ≡ change h.entries frame) }
        ensures seen { seen self.new ≡ with_row (seen self.old) frame (stamped_row (row_at (seen self.old) frame) clock) }
        ensures room { KeepsRoom (room self.old) (room self.new) };

    /// Gives the latch back.
    fn unlatch(&mut self, frame: u32)
        requires may { MayUnlatch (seen self.old) frame }
        ensures seen { seen self.new ≡ with_row (seen self.old) frame (unlatched_row (row_at (seen self.old) frame)) }
        ensures room { KeepsRoom (room self.old) (room self.new) };

    /// Takes the image out of the frame.
    fn lift(&mut self, frame: u32) -> Image
        requires reached { IsVisited (seen self.old) frame }
        requires there { IsSome (row_at (seen self.old) frame).image }
        ensures image { IfSome (row_at (seen self.old) frame).image (λ told. IfSome told (λ content. result ≡ content)) }
        ensures seen { seen self.new ≡ with_row (seen self.old) frame (lifted_row (row_at (seen self.old) frame)) }
        ensures room { KeepsRoom (room self.old) (room self.new) };

    /// Puts an image into the frame.
    fn lay(&mut self, frame: u32, image: Image)
        requires may { MayLay (seen self.old) frame image }
        ensures seen { seen self.new ≡ with_row (seen self.old) frame (laid_row (row_at (seen self.old) frame) image) }
        ensures room { KeepsRoom (room self.old) (room self.new) };
}
