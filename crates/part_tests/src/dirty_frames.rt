//! More room under a list that stands.
use flush_list::Flush;
use std::process::Abort;
use std::test::Fail;

/// The list tells this tail, oldest LSN and length.
fn check(rt: &impl Abort, flush: &Flush, told: (Option<u32>, Option<u64>, u32)) {
    assert_eq!(rt; flush.tail(), told.0);
    assert_eq!(rt; flush.oldest(), told.1);
    assert_eq!(rt; flush.len(), told.2);
}

#[test]
fn more_room_leaves_the_list(rt: HostRuntime) -> Result<(), Fail> {
    let mut flush = Flush::new(rt.alloc());
    check(&rt, &flush, (None, None, 0));
    flush.grow(2)?;
    flush.add(1, 7);
    check(&rt, &flush, (Some(1), Some(7), 1));
    flush.grow(9)?;
    check(&rt, &flush, (Some(1), Some(7), 1));
    flush.add(8, 9);
    check(&rt, &flush, (Some(1), Some(7), 2));
    Ok(())
}
