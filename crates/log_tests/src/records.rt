//! Records that were made by hand are read.

use crate::changes::{LOG, SPANS, create, put};
use redo_mark::{read_change, records_are_whole};
use std::test::Fail;

#[test]
fn records_are_read_back(rt: HostRuntime) -> Result<(), Fail> {
    let alloc = rt.alloc();
    let (change, span) = read_change(alloc, LOG.as_slice(), 8192)?;
    assert_eq!(rt; (change, span), (put(alloc, 0xab)?, SPANS[0]));
    let (change, span) = read_change(alloc, &LOG[22..], 8214)?;
    assert_eq!(rt; (change, span), (create(alloc), SPANS[1]));
    records_are_whole();
    Ok(())
}
