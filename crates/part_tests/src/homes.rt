//! The crate `page_hash`: pages that come, move and go, and a resize under them.
ghost use Rattle.std.specs.Prelude.{◌≤◌};

use page_hash::PageHash;
use page_ids::{OutOfMemory, PageId};
use std::alloc::{AllocError, Global};
use std::marker::Model;
use std::process::Abort;
use std::test::Fail;

/// A hash, its room, and the frames that were put in.
#[derive(Drop)]
struct Trial {
    hash: PageHash,
    room: u32,
    used: Vec<u32>,
}

/// Seen as its room.
impl Model for Trial {
    ghost use Rattle.std.specs.Prelude.{◌≡◌, ℕ, length};
    ghost use Rattle.part_tests.specs.Used.{AreUsed};

    ghost Value = { ℕ };

    ghost view = { λ t. t.room };

    ghost invariant = { λ t. (length t.hash ≡ t.room) × AreUsed t.hash t.used.items };
}

impl Trial {
    fn new(alloc: Global, cells: u32, frames: u32) -> Result<Trial, OutOfMemory>
        requires { 1 ≤ cells }
    {
        let mut trial = Trial {
            hash: PageHash::new(alloc, cells)?,
            room: 0,
            used: Vec::new(alloc),
        };
        trial.resize(cells, frames)?;
        Ok(trial)
    }

    fn resize(&mut self, cells: u32, frames: u32) -> Result<(), OutOfMemory>
        requires { 1 ≤ cells }
    {
        self.hash.resize(cells, frames)?;
        self.room = self.room.max(frames);
        Ok(())
    }

    /// Puts a page in, where neither it nor the frame is in.
    fn put(&mut self, page: PageId, frame: u32) -> Result<(), AllocError> {
        let known = self.used.contains(&frame);
        let there = self.hash.find(page).is_some();
        if frame >= self.room || known || there {
            return Ok(());
        }
        self.used.push(frame)?;
        self.hash.insert(page, frame);
        Ok(())
    }

    /// Puts a page that is in into a frame that isn't.
    fn go(&mut self, page: PageId, frame: u32) -> Result<(), AllocError> {
        let known = self.used.contains(&frame);
        let there = self.hash.find(page).is_some();
        if frame >= self.room || known || !there {
            return Ok(());
        }
        self.used.push(frame)?;
        self.hash.replace(page, frame);
        Ok(())
    }

    /// Takes a page out that is in.
    fn take(&mut self, page: PageId) {
        let there = self.hash.find(page).is_some();
        if there {
            self.hash.remove(page);
        }
    }

    /// The pages 0 to 5 of both spaces have these frames.
    fn check(&self, rt: &impl Abort, homes: [[Option<u32>; 6]; 2]) {
        for space in 0..2u32 {
            for page in 0..6u32 {
                let home = homes[space as usize][page as usize];
                assert_eq!(rt;
                    self.hash.find(PageId { space, page }),
                    home,
                    "{space}:{page}"
                );
            }
        }
    }
}

const NONE: [Option<u32>; 6] = [None; 6];

#[test]
fn pages_keep_their_frames(rt: HostRuntime) -> Result<(), Fail> {
    let mut trial = Trial::new(rt.alloc(), 2, 8)?;
    trial.check(&rt, [NONE, NONE]);
    for page in 0..5 {
        trial.put(PageId { space: 0, page }, 4 - page)?;
    }
    trial.put(PageId { space: 1, page: 0 }, 5)?;
    let first = [Some(4), Some(3), Some(2), Some(1), Some(0), None];
    let second = [Some(5), None, None, None, None, None];
    trial.check(&rt, [first, second]);
    for (cells, frames) in [(1, 8), (7, 0), (64, 4), (3, 12), (2, 12)] {
        trial.resize(cells, frames)?;
        trial.check(&rt, [first, second]);
    }
    trial.take(PageId { space: 0, page: 2 });
    trial.go(PageId { space: 0, page: 4 }, 11)?;
    trial.put(PageId { space: 0, page: 5 }, 7)?;
    let first = [Some(4), Some(3), None, Some(1), Some(11), Some(7)];
    trial.check(&rt, [first, second]);
    trial.resize(1, 12)?;
    trial.check(&rt, [first, second]);
    for page in 0..6 {
        trial.take(PageId { space: 0, page });
    }
    trial.check(&rt, [NONE, second]);
    Ok(())
}
