//! The crate `dump_load`: texts and ids both ways, which line is refused, and what is loaded.
use dump_load::{DumpErr, dump_text, read_dump, to_load};
use page_ids::PageId;
use std::alloc::{AllocError, Global};
use std::test::Fail;

/// Ids of space 0 by their pages, but for the last one.
const FEW: [PageId; 3] = [
    PageId { space: 0, page: 3 },
    PageId { space: 0, page: 1 },
    PageId {
        space: 4294967295,
        page: 4294967295,
    },
];

/// Texts, each with the ids that it spells.
const DUMPS: [(&[u8], &[PageId]); 6] = [
    (b"", &[]),
    (b"0,3", &[PageId { space: 0, page: 3 }]),
    (b"0,3\n", &[PageId { space: 0, page: 3 }]),
    (b"0,3\n0,1\n4294967295,4294967295\n", &FEW),
    (b"0,3\n0,1\n4294967295,4294967295", &FEW),
    (
        b"7,0\n7,0\n",
        &[PageId { space: 7, page: 0 }, PageId { space: 7, page: 0 }],
    ),
];

#[test]
fn dumps_are_read(rt: HostRuntime) -> Result<(), Fail> {
    for (text, ids) in DUMPS {
        match read_dump(rt.alloc(), text) {
            Ok(found) => assert_eq!(rt; found.as_slice(), ids, "{text:?}"),
            Err(error) => assert!(rt; false, "{text:?}: {error:?}"),
        }
    }
    Ok(())
}

#[test]
fn dumps_are_printed(rt: HostRuntime) -> Result<(), Fail> {
    let mut out = Vec::from_slice(rt.alloc(), b"dump ")?;
    dump_text(&FEW, &mut out)?;
    assert_eq!(rt;
        out.as_slice(),
        b"dump 0,3\n0,1\n4294967295,4294967295\n".as_slice()
    );
    dump_text(&[], &mut out)?;
    assert_eq!(rt; out.len(), 35);
    Ok(())
}

/// Texts that are no dump, each with its first bad line.
const BAD: [(&[u8], u32); 22] = [
    (b"\n", 1),
    (b"0;3", 1),
    (b"0,3\n\n", 2),
    (b"0,3\n\n0,1", 2),
    (b"0,3\n0;3\n,", 2),
    (b"0,", 1),
    (b",0", 1),
    (b"0", 1),
    (b"0 3", 1),
    (b"0, 3", 1),
    (b" 0,3", 1),
    (b"0,3 ", 1),
    (b"0,3\r\n", 1),
    (b"0,03", 1),
    (b"00,3", 1),
    (b"+0,3", 1),
    (b"0,-3", 1),
    (b"0,3,4", 1),
    (b"0:3", 1),
    (b"4294967296,0", 1),
    (b"0,4294967296", 1),
    (b"0,99999999999999999999", 1),
];

#[test]
fn the_first_bad_line_is_told(rt: HostRuntime) -> Result<(), Fail> {
    for (text, line) in BAD {
        let refused = read_dump(rt.alloc(), text).err();
        assert_eq!(rt; refused, Some(DumpErr::BadLine { line }), "{text:?}");
    }
    Ok(())
}

/// So many lines `0,0`, and this behind them.
fn zeros(alloc: Global, count: u32, end: &[u8]) -> Result<Vec<u8>, AllocError> {
    let mut text = Vec::new(alloc);
    for _ in 0..count {
        text.extend_from_slice(b"0,0\n")?;
    }
    text.extend_from_slice(end)?;
    Ok(text)
}

#[test]
fn as_many_lines_as_there_may_be(rt: HostRuntime) -> Result<(), Fail> {
    let alloc = rt.alloc();
    let full = zeros(alloc, 65536, b"")?;
    assert_eq!(rt; read_dump(alloc, &full).map_or(0, |ids| ids.len()), 65536);
    let rows: [(u32, &[u8], DumpErr); 4] = [
        (65537, b"", DumpErr::TooMany { line: 65537 }),
        (65536, b"what", DumpErr::TooMany { line: 65537 }),
        (65536, b"\n", DumpErr::TooMany { line: 65537 }),
        (65535, b"what\n0,0\n", DumpErr::BadLine { line: 65536 }),
    ];
    for (count, end, refused) in rows {
        let text = zeros(alloc, count, end)?;
        assert_eq!(rt; read_dump(alloc, &text).err(), Some(refused), "{end:?}");
    }
    Ok(())
}

/// A dump's text, and that of what is loaded of it.
const LOADS: [(&[u8], &[u8]); 4] = [
    (b"0,3\n0,1\n0,3", b"0,1\n0,3\n"),
    (b"", b""),
    (b"1,0\n0,9\n0,10\n1,0\n0,9", b"0,9\n0,10\n1,0\n"),
    (b"2,2\n2,2\n2,2\n", b"2,2\n"),
];

#[test]
fn each_page_is_loaded_once(rt: HostRuntime) -> Result<(), Fail> {
    let alloc = rt.alloc();
    for (dump, text) in LOADS {
        let Ok(ids) = read_dump(alloc, dump) else {
            assert!(rt; false, "{dump:?}");
            return Ok(());
        };
        let mut out = Vec::new(alloc);
        dump_text(to_load(alloc, &ids)?.as_slice(), &mut out)?;
        assert_eq!(rt; out.as_slice(), text, "{dump:?}");
    }
    Ok(())
}
