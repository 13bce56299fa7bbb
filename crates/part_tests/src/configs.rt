//! page_ids: which number of a pool is the first that is wrong.

use page_ids::{BadConfig, Config, Field, PageSize, rounded};
use std::test::Fail;

/// The numbers of a pool: instances, frames, size, max, old_pct, old_time, old_min, lsn, first; pages have 16384 bytes.
type Numbers = (u16, u32, u64, u32, u32, u64, u32, u64, u64);

/// The numbers of a pool, and the chunks at the start or the number that is wrong.
type Row = (Numbers, Result<u32, (Field, u64)>);

const ROWS: [Row; 22] = [
    ((1, 8192, 134217728, 2, 37, 1000, 512, 8192, 0), Ok(1)),
    ((1, 8192, 134217729, 2, 37, 1000, 512, 8192, 0), Ok(2)),
    ((2, 4, 131073, 4, 37, 1000, 512, 8192, 0), Ok(2)),
    ((16, 1, 1, 16, 5, 0, 1, 1, 281474976677887), Ok(1)),
    ((0, 0, 0, 0, 0, 0, 0, 0, 0), Err((Field::Instances, 0))),
    (
        (17, 8192, 1, 2, 37, 1000, 512, 8192, 0),
        Err((Field::Instances, 17)),
    ),
    (
        (1, 0, 0, 0, 37, 1000, 512, 8192, 0),
        Err((Field::Frames, 0)),
    ),
    (
        (1, 8193, 1, 1, 37, 1000, 512, 8192, 0),
        Err((Field::Frames, 8193)),
    ),
    (
        (1, 8192, 0, 0, 37, 1000, 512, 8192, 0),
        Err((Field::Max, 0)),
    ),
    (
        (1, 8192, 0, 17, 37, 1000, 512, 8192, 0),
        Err((Field::Max, 17)),
    ),
    (
        (1, 8192, 0, 3, 37, 1000, 512, 8192, 0),
        Err((Field::Max, 3)),
    ),
    ((16, 8192, 1, 1, 37, 1000, 512, 8192, 0), Ok(1)),
    (
        (16, 8192, 1, 2, 37, 1000, 512, 8192, 0),
        Err((Field::Max, 2)),
    ),
    (
        (1, 8192, 0, 2, 0, 1000, 512, 8192, 0),
        Err((Field::Size, 0)),
    ),
    (
        (1, 8192, 268435457, 2, 0, 1000, 512, 8192, 0),
        Err((Field::Size, 268435457)),
    ),
    (
        (1, 8192, 18446744073709551615, 2, 37, 1000, 512, 8192, 0),
        Err((Field::Size, 18446744073709551615)),
    ),
    (
        (1, 8192, 1, 2, 96, 4294967296, 512, 8192, 0),
        Err((Field::OldPct, 96)),
    ),
    (
        (1, 8192, 1, 2, 37, 4294967296, 0, 8192, 0),
        Err((Field::OldTime, 4294967296)),
    ),
    (
        (1, 8192, 1, 2, 37, 1000, 16385, 0, 0),
        Err((Field::OldMin, 16385)),
    ),
    (
        (1, 8192, 1, 2, 37, 1000, 512, 0, 281474976677888),
        Err((Field::Lsn, 0)),
    ),
    (
        (1, 8192, 1, 2, 37, 1000, 512, 9223372036854775808, 0),
        Err((Field::Lsn, 9223372036854775808)),
    ),
    (
        (1, 8192, 1, 2, 37, 1000, 512, 8192, 281474976677888),
        Err((Field::First, 281474976677888)),
    ),
];

fn config_of(numbers: Numbers) -> Config {
    let (instances, frames, size, max, old_pct, old_time, old_min, lsn, first) = numbers;
    Config {
        page: PageSize::Kib16,
        instances,
        frames,
        size,
        max,
        old_pct,
        old_time,
        old_min,
        lsn,
        first,
    }
}

#[test]
fn which_number_is_wrong(rt: HostRuntime) -> Result<(), Fail> {
    for (numbers, want) in ROWS {
        let found = match config_of(numbers).check() {
            Ok(chunks) => Ok(chunks),
            Err(BadConfig { field, value }) => Err((field, value)),
        };
        assert_eq!(rt; found, want);
    }
    Ok(())
}

#[test]
fn sizes_are_rounded_up(rt: HostRuntime) -> Result<(), Fail> {
    let rows = [
        (0, 8, 0),
        (1, 8, 8),
        (8, 8, 8),
        (9, 8, 16),
        (1099511627776, 2147483648, 1099511627776),
    ];
    for (bytes, unit, want) in rows {
        if unit > 0 && unit <= 2147483648 && bytes <= 1099511627776 {
            assert_eq!(rt; rounded(bytes, unit), want);
        }
    }
    Ok(())
}
