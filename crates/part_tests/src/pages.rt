//! page_ids: what words and lists read as, and a page as MySQL writes it.

use crate::texts::compare;
use page_ids::{Bytes, Ids, Image, PageId, PageSize, Word, Words, decode, encode};
use std::test::Fail;

const PAGE: PageId = PageId { space: 3, page: 7 };

const WORDS: [(Word, &str); 6] = [
    (Word { bits: 0 }, "0/-/0"),
    (Word { bits: 0x2_0003 }, "2/-/3"),
    (Word { bits: 0x2_4000 }, "2/L/0"),
    (Word { bits: 0x5_8001 }, "5/R/1"),
    (Word { bits: 0x9_C002 }, "9/RL/2"),
    (
        Word {
            bits: 0xFFFF_FFFF_FFFF_FFFF,
        },
        "281474976710655/RL/16383",
    ),
];

#[test]
fn words_and_lists_are_spelled(rt: HostRuntime) -> Result<(), Fail> {
    let alloc = rt.alloc();
    compare(&rt, alloc, &WORDS)?;
    compare(&rt, alloc, &[(PAGE, "3:7")])?;
    let none = Ids::of(Vec::new(alloc));
    let ids = Ids::of(vec![in alloc; PAGE, PageId { space: 0, page: 1 }]?);
    compare(&rt, alloc, &[(none, "-"), (ids, "3:7,0:1")])?;
    let none = Words::of(Vec::new(alloc));
    let words = Words::of(vec![in alloc; (0, Word { bits: 0x5_8001 }), (2, Word { bits: 0 })]?);
    compare(&rt, alloc, &[(none, "-"), (words, "0=5/R/1,2=0/-/0")])?;
    let bytes = Bytes::of(vec![in alloc; 0, 10, 171]?);
    compare(&rt, alloc, &[(bytes, "000aab")])?;
    Ok(())
}

/// Page 0:4 with the LSN 20322860, as MySQL writes an index page but for its body.
fn written_by_mysql() -> [u8; 16384] {
    let mut page = [7; 16384];
    page[0..8].copy_from_slice(&[0xC0, 0xFF, 0xEE, 0x11, 0, 0, 0, 4]);
    page[16..26].copy_from_slice(&[0, 0, 0, 0, 0x01, 0x36, 0x1A, 0x2C, 0x45, 0xBF]);
    page[34..38].copy_from_slice(&[0, 0, 0, 0]);
    page[16380..16384].copy_from_slice(&[0x01, 0x36, 0x1A, 0x2C]);
    page
}

/// The same page with our checksums.
fn written_again() -> [u8; 16384] {
    let mut page = written_by_mysql();
    page[0..4].copy_from_slice(&[0xDE, 0xAD, 0xBE, 0xEF]);
    page[16376..16380].copy_from_slice(&[0xDE, 0xAD, 0xBE, 0xEF]);
    page
}

#[test]
fn a_page_as_mysql_writes_it(rt: HostRuntime) -> Result<(), Fail> {
    let mut image = Image::blank(rt.alloc(), PageSize::Kib16)?;
    let id = PageId { space: 0, page: 4 };
    assert_eq!(rt; decode(id, &written_by_mysql(), &mut image), Ok(()));
    assert_eq!(rt; image.size(), 16384);
    let mut again = [0; 16384];
    encode(id, &image, &mut again);
    assert_eq!(rt; again.as_slice(), written_again().as_slice());
    Ok(())
}
