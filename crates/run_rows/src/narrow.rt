//! A sink in memory that takes a text in pieces.
ghost use Rattle.std.specs.Prelude.{◌≡◌, Some};

use page_disk::{Sink, SinkMemory};
use page_ids::Failed;

/// A sink in memory that takes no more than so many bytes a call, and at least one.
#[derive(Drop)]
pub(crate) struct Narrow {
    pub(crate) sink: SinkMemory,
    pub(crate) most: usize,
}

impl Sink for Narrow {
    ghost held = { λ n. Some n.sink.held };

    ghost fault_count = { λ n. n.sink.calls.faults };

    fn put(&mut self, piece: &[u8]) -> Result<u32, Failed> {
        let most = piece.len().min(self.most.max(1));
        self.sink.put(&piece[..most])
    }
}
