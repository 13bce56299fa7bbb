//! The crate `watches`: as many watches as may be, and each call's answer.
use page_ids::{MOST_WATCHES, PageId};
use std::test::Fail;
use watches::{NoWatch, WatchFull, Watches};

const PAGE: PageId = PageId { space: 0, page: 7 };

#[test]
fn a_watch_from_its_setting_to_its_end(rt: HostRuntime) -> Result<(), Fail> {
    let mut watches = Watches::new(rt.alloc())?;
    assert_eq!(rt; watches.occurred(1, PAGE), Err(NoWatch));
    assert_eq!(rt; watches.arrived(PAGE), 0);
    assert_eq!(rt; watches.set(1, PAGE), Ok(()));
    assert_eq!(rt; watches.set(2, PAGE), Ok(()));
    assert_eq!(rt; watches.occurred(1, PAGE), Ok(false));
    assert_eq!(rt; watches.arrived(PAGE), 2);
    assert_eq!(rt; watches.set(1, PAGE), Ok(()));
    assert_eq!(rt; watches.occurred(1, PAGE), Ok(true));
    assert_eq!(rt; watches.unset(1, PAGE), Ok(true));
    assert_eq!(rt; watches.unset(1, PAGE), Err(NoWatch));
    assert_eq!(rt; watches.set(1, PAGE), Ok(()));
    assert_eq!(rt; watches.unset(1, PAGE), Ok(false));
    assert_eq!(rt; watches.occurred(2, PAGE), Ok(true));
    Ok(())
}

#[test]
fn as_many_as_may_be(rt: HostRuntime) -> Result<(), Fail> {
    let mut watches = Watches::new(rt.alloc())?;
    for page in 0..MOST_WATCHES {
        assert_eq!(rt; watches.set(1, PageId { space: 0, page }), Ok(()));
    }
    let full = WatchFull { watches: 33 };
    assert_eq!(rt; watches.set(1, PageId { space: 0, page: 33 }), Err(full));
    assert_eq!(rt; watches.set(2, PAGE), Err(full));
    assert_eq!(rt; watches.set(1, PAGE), Ok(()));
    assert_eq!(rt; watches.unset(1, PAGE), Ok(false));
    assert_eq!(rt; watches.set(2, PAGE), Ok(()));
    Ok(())
}
