// Each public call once with ample memory, and each fault once.
use board_base::{
    Cell, Items, MemoryShelf, MemorySink, Point, Shelf, ShelfError, Sink, SinkError, SteadyShelf,
    SteadySink, centre, half_diagonal,
};
use std::test::Fail;

const LIMIT: usize = 4;

#[test]
fn a_memory_shelf_fails_where_it_is_told_to(rt: HostRuntime) -> Result<(), Fail> {
    let alloc = rt.alloc();
    let mut shelf = MemoryShelf::new(alloc);
    shelf.add("a", b"abcd")?;
    shelf.fail_read(2);
    shelf.fail_write(1);
    let first = shelf.read(alloc, "a", LIMIT).ok().ok_or("refused")?;
    assert_eq!(rt; first.as_slice(), b"abcd".as_slice());
    assert_eq!(rt;
        shelf.read(alloc, "a", LIMIT).err(),
        Some(ShelfError::Failed)
    );
    assert_eq!(rt;
        shelf.read(alloc, "b", LIMIT).err(),
        Some(ShelfError::Failed)
    );
    assert_eq!(rt;
        shelf.read(alloc, "a", LIMIT - 1).err(),
        Some(ShelfError::TooLong)
    );
    assert_eq!(rt; shelf.write("b", b"x"), Err(ShelfError::Failed));
    assert!(rt; shelf.get("b").is_none());
    assert_eq!(rt; shelf.write("b", b"x"), Ok(()));
    assert_eq!(rt; shelf.get("b").ok_or("not held")?, b"x".as_slice());
    Ok(())
}

#[test]
fn a_steady_shelf_never_fails(rt: HostRuntime) -> Result<(), Fail> {
    let alloc = rt.alloc();
    let mut shelf = SteadyShelf::new(alloc);
    shelf.add("a", b"abcd")?;
    let read = shelf.read(alloc, "a", LIMIT).ok().ok_or("refused")?;
    assert_eq!(rt; read.as_slice(), b"abcd".as_slice());
    assert_eq!(rt;
        shelf.read(alloc, "a", LIMIT - 1).err(),
        Some(ShelfError::TooLong)
    );
    assert_eq!(rt; shelf.write("a", b"x"), Ok(()));
    assert_eq!(rt; shelf.get("a").ok_or("not held")?, b"x".as_slice());
    Ok(())
}

#[test]
fn sinks_append(rt: HostRuntime) -> Result<(), Fail> {
    let alloc = rt.alloc();
    let mut sink = MemorySink::new(alloc);
    sink.fail_put(2);
    assert_eq!(rt; sink.put(b"a"), Ok(()));
    assert_eq!(rt; sink.put(b"b"), Err(SinkError::Failed));
    assert_eq!(rt; sink.put(b"c"), Ok(()));
    assert_eq!(rt; sink.bytes(), b"ac".as_slice());
    let mut steady = SteadySink::new(alloc);
    assert_eq!(rt; steady.put(b"ab"), Ok(()));
    assert_eq!(rt; steady.bytes(), b"ab".as_slice());
    Ok(())
}

#[test]
fn a_list_keeps_its_items(rt: HostRuntime) -> Result<(), Fail> {
    let alloc = rt.alloc();
    let mut list: Items<u8> = Items::empty(alloc);
    list.push(7)?;
    list.push(8)?;
    assert_eq!(rt; list.len(), 2);
    assert!(rt; 1 < list.len());
    assert_eq!(rt; *list.at(1), 8);
    let same: Items<u8> = Items::of(list.inner().as_slice().to_vec(alloc)?);
    assert_eq!(rt; same.inner().as_slice(), [7, 8].as_slice());
    Ok(())
}

#[test]
fn cells_have_their_measures(rt: HostRuntime) {
    for (pitch, half) in [
        (200_000, 141_422),
        (20_000, 14_143),
        (2_000, 1_415),
        (250, 177),
    ] {
        assert_eq!(rt; half_diagonal(pitch), half, "at {pitch}");
    }
    for (i, x) in [(0, 100_000), (6, 1_300_000), (-2, -300_000)] {
        let cell = Cell { i, j: -i };
        let expected = Point { x, y: 200_000 - x };
        assert_eq!(rt; centre(cell, 200_000), expected, "at {i}");
    }
}
