//! Which pages to load.
ghost use Rattle.std.specs.Prelude.{IfOk};
ghost use Rattle.dump_load.specs.Loads.{AreToLoad};

use page_ids::{OutOfMemory, PageId};
use std::alloc::Global;

/// The ids in rising order, by space, then page, each once (buf0dump's sorting of a dump that is loaded).
pub fn to_load(alloc: Global, ids: &[PageId]) -> Result<Vec<PageId>, OutOfMemory>
    ensures { IfOk result (λ loads. AreToLoad ids.now loads.items) }
{
    let mut loads = Vec::from_slice(alloc, ids)?;
    loads.sort_unstable();
    loads.dedup();
    Ok(loads)
}
