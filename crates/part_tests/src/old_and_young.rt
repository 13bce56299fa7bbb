//! A ninth page of a list with an old sublist, and more room under a list that stands.
ghost use Rattle.std.specs.Prelude.{◌<◌, ℕ, IfOk};
ghost use Rattle.midpoint_lru.specs.View.{Has};

use midpoint_lru::{Lru, Touch};
use page_ids::OutOfMemory;
use std::alloc::{AllocError, Global};
use std::process::Abort;
use std::test::Fail;

/// The frames from 0 on, each read in behind the one before. A third is old from four frames on, after a second.
fn read(alloc: Global, frames: u32) -> Result<Lru, OutOfMemory>
    ensures { IfOk result (λ lru. (f : ℕ) → f < frames → Has lru f) }
{
    let mut lru = Lru::new(alloc, 37, 1000, 4);
    lru.grow(frames)?;
    for frame in 0..frames {
        lru.read_in(frame);
    }
    Ok(lru)
}

/// The frames from the tail to the head.
fn walked(alloc: Global, lru: &Lru) -> Result<Vec<u32>, AllocError> {
    let mut frames = Vec::new(alloc);
    let mut at = lru.walk(None);
    while let Some(frame) = at {
        frames.push(frame)?;
        at = lru.walk(Some(frame));
    }
    Ok(frames)
}

/// The list is this one, the tail first.
fn check(rt: &impl Abort, alloc: Global, lru: &Lru, frames: &[u32]) -> Result<(), AllocError> {
    assert_eq!(rt; walked(alloc, lru)?.as_slice(), frames);
    assert_eq!(rt; lru.len() as usize, frames.len());
    Ok(())
}

const EIGHT: [u32; 8] = [0, 5, 7, 6, 4, 1, 2, 3];

const NINE: [u32; 9] = [0, 5, 8, 7, 6, 4, 1, 2, 3];

const NINTH_FIRST: [u32; 9] = [0, 5, 7, 6, 4, 1, 2, 3, 8];

/// Touches of frame 8 by their moments, and the list then.
const TOUCHES: [(u64, Touch, &[u32]); 3] = [
    (0, Touch::Stayed, &NINE),
    (999, Touch::Stayed, &NINE),
    (1000, Touch::Young, &NINTH_FIRST),
];

#[test]
fn a_ninth_page_stands_before_the_old_ones(rt: HostRuntime) -> Result<(), Fail> {
    let alloc = rt.alloc();
    check(&rt, alloc, &read(alloc, 8)?, &EIGHT)?;
    let mut lru = read(alloc, 9)?;
    check(&rt, alloc, &lru, &NINE)?;
    for (now, answer, frames) in TOUCHES {
        assert_eq!(rt; lru.touch(8, now), answer);
        check(&rt, alloc, &lru, frames)?;
    }
    Ok(())
}

#[test]
fn more_room_leaves_the_list(rt: HostRuntime) -> Result<(), Fail> {
    let alloc = rt.alloc();
    let mut lru = read(alloc, 9)?;
    for frames in [9, 20, 5] {
        lru.grow(frames)?;
        check(&rt, alloc, &lru, &NINE)?;
    }
    Ok(())
}
