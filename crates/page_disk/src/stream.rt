//! Where a script comes from, and where the text goes.
ghost use Rattle.std.specs.Prelude.{◌<◌, ℕ, List, Option, length};
ghost use Rattle.page_ids.specs.Faults.{IsCounted};
ghost use Rattle.page_disk.specs.Streams.{TakesPiece, PutsPiece};

use page_ids::Failed;

/// Bytes from outside, with a count of faults.
pub trait Source {
    /// What it has left, where that is told.
    ghost left: { Self → Option (List ℕ) };

    /// How often it failed; stays at 2^64 - 1.
    ghost fault_count: { Self → ℕ };

    /// PutsPiece its next bytes at the front of `out`, and answers how many; 0 comes exactly where nothing is left.
    fn take(&mut self, out: &mut [u8]) -> Result<u32, Failed>
        requires { 0 < length out.old }
        ensures bytes { TakesPiece (left self.old) (left self.new) result out.new }
        ensures cause { IsCounted (fault_count self.old) (fault_count self.new) result };
}

/// Bytes to the outside, with a count of faults.
pub trait Sink {
    /// What it holds, where that is told.
    ghost held: { Self → Option (List ℕ) };

    /// How often it failed; stays at 2^64 - 1.
    ghost fault_count: { Self → ℕ };

    /// TakesPiece at least one byte from the front of a piece that is not empty, puts what it takes behind all that it holds, and answers how many bytes these are.
    fn put(&mut self, piece: &[u8]) -> Result<u32, Failed>
        requires { 0 < length piece.now }
        ensures bytes { PutsPiece (held self.old) (held self.new) result piece.now }
        ensures cause { IsCounted (fault_count self.old) (fault_count self.new) result };
}
