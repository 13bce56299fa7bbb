//! Chunks that are reserved, added and withdrawn, with each refusal.
use frame_book::{Book, BookErr};
use std::test::Fail;

/// What `add_chunk` answers in a book of two chunks at most.
const ADDED: [Result<(), BookErr>; 3] = [Ok(()), Ok(()), Err(BookErr::ChunksFull { chunks: 2 })];

#[test]
fn two_chunks_are_the_most_and_one_the_least(rt: HostRuntime) -> Result<(), Fail> {
    let mut book = Book::new(rt.alloc(), 2, 2);
    assert_eq!(rt; book.front(), None);
    book.reserve(2)?;
    for answer in ADDED {
        assert_eq!(rt; book.add_chunk(), answer);
    }
    assert_eq!(rt; book.front(), Some(0));
    assert_eq!(rt; book.take_free(), Some(0));
    let chunks = book.chunks();
    assert!(rt; chunks == 2);
    for (from, answer) in [
        (0, Err(BookErr::LastChunk)),
        (1, Ok(())),
        (1, Err(BookErr::Withdrawing { from: 1 })),
    ] {
        let chunks = book.chunks();
        assert!(rt; from < chunks);
        assert_eq!(rt; book.begin_withdraw(from), answer);
    }
    assert_eq!(rt; book.add_chunk(), Err(BookErr::Withdrawing { from: 1 }));
    assert_eq!(rt; book.front(), Some(1));
    assert!(rt; book.all_withdrawn());
    Ok(())
}
