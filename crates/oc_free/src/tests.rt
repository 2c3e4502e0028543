use crate::FreeSpace;
use std::alloc::{AllocError, Global};
use std::test::Fail;

// Parts of 4, 3, 3 and 10 blocks.
fn four_parts(alloc: Global) -> Result<FreeSpace, AllocError> {
    let mut free = FreeSpace::new(alloc);
    free.reserve(4)?;
    free.release(20, 3);
    free.release(40, 10);
    free.release(10, 4);
    free.release(30, 3);
    Ok(free)
}

#[test]
fn the_best_fit_is_the_least_part_and_the_first_of_its_size(rt: HostRuntime) -> Result<(), Fail> {
    let mut free = four_parts(rt.alloc())?;
    assert_eq!(rt; (free.total(), free.largest()), (20, 10));
    for (need, want, total) in [
        (3, Some(20), 17),
        (3, Some(30), 14),
        (3, Some(10), 11),
        (11, None, 11),
        (1, Some(13), 10),
        (4, Some(40), 6),
        (6, Some(44), 0),
        (1, None, 0),
    ] {
        assert_eq!(rt; free.take(need), want, "of {need}");
        assert_eq!(rt; free.total(), total, "after {need}");
    }
    assert_eq!(rt; free.largest(), 0);
    Ok(())
}

#[test]
fn blocks_join_the_parts_that_they_touch(rt: HostRuntime) -> Result<(), Fail> {
    let mut free = FreeSpace::new(rt.alloc());
    free.reserve(3)?;
    free.release(10, 2);
    free.release(14, 2);
    assert_eq!(rt; (free.total(), free.largest()), (4, 2));
    free.release(12, 2);
    assert_eq!(rt; (free.total(), free.largest()), (6, 6));
    assert_eq!(rt; free.take(6), Some(10));
    Ok(())
}

#[test]
fn parts_with_a_block_between_them_stay_apart(rt: HostRuntime) -> Result<(), Fail> {
    let mut free = FreeSpace::new(rt.alloc());
    free.reserve(2)?;
    free.release(10, 2);
    free.release(13, 2);
    assert_eq!(rt; (free.total(), free.largest()), (4, 2));
    assert_eq!(rt; free.take(3), None);
    Ok(())
}
