use kinds::access::Access;
use kinds::deed::Deed;
use order::refusal::Refusal;
use order::room::Room;
use order::table::Table;
use std::alloc::{AllocError, Global};
use std::test::Fail;

fn table(heap: Global, cells: u16) -> Result<Table, AllocError> {
    Ok(Table::new(Room::reserve(heap)?, cells))
}

// The number of a refusal, 0 where the call was accepted, whatever it gave. Numbers, since the rules fix these and a caller sees them.
fn no<T: Drop>(r: Result<T, Refusal>) -> u8 {
    r.err().map_or(0, Refusal::number)
}

// Creates a task with one access, and starts it.
fn running(b: &mut Table, parent: u16, waits: bool, a: Access) -> u8 {
    no(b.create(parent, waits, &[a]).and_then(|t| b.start(t)))
}

#[test]
fn sixteen_runs(rt: HostRuntime) -> Result<(), Fail> {
    let mut b = table(rt.alloc(), 101)?;
    assert_eq!(rt;
        running(&mut b, 0, false, Access::new(0, 101, Access::INOUT)),
        0
    );
    for k in 0..15u16 {
        let cell = 2 * k + 1;
        assert_eq!(rt; no(b.release(1, cell, cell + 1)), 0);
    }
    assert_eq!(rt; no(b.release(1, 31, 32)), 13);
    assert_eq!(rt;
        no(b.admit(Deed::Reading, 1, 31)),
        0,
        "a refusal leaves the holdings"
    );
    assert_eq!(rt; no(b.release(1, 30, 31)), 0);
    assert_eq!(rt; no(b.admit(Deed::Reading, 1, 30)), 15);
    assert_eq!(rt; no(b.admit(Deed::Reading, 1, 31)), 0);
    Ok(())
}

#[test]
fn tasks_and_states(rt: HostRuntime) -> Result<(), Fail> {
    let mut b = table(rt.alloc(), 4)?;
    assert_eq!(rt; no(b.start(1)), 1);
    assert_eq!(rt; no(b.create(1, false, &[])), 1);
    assert_eq!(rt; no(b.start(0)), 2);
    assert_eq!(rt; no(b.resume(0)), 2);
    assert_eq!(rt; no(b.create(0, false, &[])), 0);
    assert_eq!(rt; no(b.finish(1)), 2);
    assert_eq!(rt; no(b.wait(1)), 2);
    assert_eq!(rt; no(b.release(1, 0, 1)), 2);
    assert_eq!(rt; no(b.admit(Deed::Reading, 1, 0)), 2);
    assert_eq!(rt; no(b.create(1, false, &[])), 2);
    assert_eq!(rt; no(b.start(1)), 0);
    assert_eq!(rt; no(b.start(1)), 2);
    assert_eq!(rt; no(b.finish(1)), 0);
    assert_eq!(rt; no(b.finish(1)), 2);
    Ok(())
}

#[test]
fn limits_of_a_create(rt: HostRuntime) -> Result<(), Fail> {
    let mut b = table(rt.alloc(), 4)?;
    let a = Access::new(0, 4, Access::IN);
    assert_eq!(rt; no(b.create(0, false, &[a, a, a, a, a, a, a, a])), 0);
    assert_eq!(rt; no(b.create(0, false, &[a, a, a, a, a, a, a, a, a])), 4);
    assert_eq!(rt; no(b.create(0, false, &[Access::new(2, 2, Access::IN)])), 5);
    assert_eq!(rt; no(b.create(0, false, &[Access::new(3, 5, Access::IN)])), 5);
    assert_eq!(rt;
        no(b.create(
            0,
            false,
            &[Access::new(0, 4, 0), Access::new(3, 5, Access::IN)]
        )),
        5,
        "regions first"
    );
    assert_eq!(rt; no(b.create(0, false, &[Access::new(0, 4, 0)])), 6);
    assert_eq!(rt; no(b.create(0, false, &[Access::new(0, 4, 9)])), 6);
    assert_eq!(rt;
        no(b.create(0, false, &[Access::new(0, 4, Access::WEAK_INOUT)])),
        0
    );
    Ok(())
}

#[test]
fn sixty_four_tasks(rt: HostRuntime) -> Result<(), Fail> {
    let mut b = table(rt.alloc(), 1)?;
    for _ in 1..64u16 {
        assert_eq!(rt; no(b.create(0, false, &[])), 0);
    }
    assert_eq!(rt; no(b.create(0, false, &[])), 3);
    assert_eq!(rt; no(b.start(63)), 0);
    assert_eq!(rt; no(b.start(64)), 1);
    Ok(())
}

#[test]
fn parents(rt: HostRuntime) -> Result<(), Fail> {
    let mut b = table(rt.alloc(), 4)?;
    assert_eq!(rt;
        running(&mut b, 0, false, Access::new(0, 1, Access::COMMUTATIVE)),
        0
    );
    assert_eq!(rt; no(b.create(1, false, &[])), 7);
    assert_eq!(rt; no(b.release(1, 0, 1)), 0);
    assert_eq!(rt; no(b.create(1, false, &[])), 0, "no longer held");
    assert_eq!(rt; running(&mut b, 0, false, Access::new(1, 3, Access::IN)), 0);
    assert_eq!(rt;
        no(b.create(3, false, &[Access::new(1, 2, Access::OUT)])),
        8
    );
    assert_eq!(rt; no(b.create(3, false, &[Access::new(1, 4, Access::IN)])), 8);
    assert_eq!(rt;
        no(b.create(3, false, &[Access::new(1, 3, Access::WEAK_IN)])),
        0
    );
    Ok(())
}

#[test]
fn starts(rt: HostRuntime) -> Result<(), Fail> {
    let mut b = table(rt.alloc(), 4)?;
    assert_eq!(rt;
        no(b.create(0, false, &[Access::new(0, 2, Access::WEAK_OUT)])),
        0
    );
    assert_eq!(rt; no(b.create(0, false, &[Access::new(1, 2, Access::IN)])), 0);
    assert_eq!(rt; no(b.create(0, false, &[Access::new(2, 3, Access::IN)])), 0);
    assert_eq!(rt; no(b.start(2)), 9, "a weak holding counts, started or not");
    assert_eq!(rt; no(b.start(3)), 0);
    assert_eq!(rt; no(b.start(1)), 0);
    assert_eq!(rt; no(b.start(2)), 9);
    assert_eq!(rt; no(b.release(1, 1, 2)), 0);
    assert_eq!(rt; no(b.start(2)), 0);
    Ok(())
}

#[test]
fn one_commutative_at_a_time(rt: HostRuntime) -> Result<(), Fail> {
    let mut b = table(rt.alloc(), 2)?;
    assert_eq!(rt;
        no(b.create(0, false, &[Access::new(0, 1, Access::COMMUTATIVE)])),
        0
    );
    assert_eq!(rt;
        no(b.create(0, false, &[Access::new(0, 1, Access::COMMUTATIVE)])),
        0
    );
    assert_eq!(rt; no(b.start(2)), 0);
    assert_eq!(rt; no(b.start(1)), 10);
    assert_eq!(rt; no(b.wait(2)), 0);
    assert_eq!(rt; no(b.start(1)), 10, "waiting is past Created too");
    assert_eq!(rt; no(b.resume(2)), 0);
    assert_eq!(rt; no(b.finish(2)), 0);
    assert_eq!(rt; no(b.start(1)), 0);
    Ok(())
}

#[test]
fn waits_and_releases(rt: HostRuntime) -> Result<(), Fail> {
    let mut b = table(rt.alloc(), 4)?;
    assert_eq!(rt;
        no(b.create(0, false, &[Access::new(0, 2, Access::INOUT)])),
        0
    );
    assert_eq!(rt; no(b.wait(0)), 0);
    assert_eq!(rt; no(b.resume(0)), 11);
    assert_eq!(rt; no(b.start(1)), 0);
    assert_eq!(rt; no(b.release(1, 1, 1)), 5);
    assert_eq!(rt; no(b.release(1, 1, 5)), 5);
    assert_eq!(rt; no(b.release(1, 1, 3)), 12);
    assert_eq!(rt; no(b.release(1, 0, 2)), 0);
    assert_eq!(rt; no(b.release(1, 0, 1)), 12);
    assert_eq!(rt; no(b.resume(0)), 11);
    assert_eq!(rt; no(b.finish(1)), 0);
    assert_eq!(rt; no(b.resume(0)), 0);
    Ok(())
}

#[test]
fn steps(rt: HostRuntime) -> Result<(), Fail> {
    let mut b = table(rt.alloc(), 4)?;
    assert_eq!(rt; no(b.admit(Deed::Reading, 0, 4)), 14);
    assert_eq!(rt; no(b.admit(Deed::Reading, 0, 3)), 0);
    assert_eq!(rt;
        running(&mut b, 0, false, Access::new(0, 1, Access::OUT)),
        0
    );
    assert_eq!(rt; no(b.admit(Deed::Reading, 1, 0)), 15);
    assert_eq!(rt; no(b.admit(Deed::Updating, 1, 0)), 15);
    assert_eq!(rt; no(b.admit(Deed::Writing, 1, 0)), 0);
    assert_eq!(rt;
        running(&mut b, 0, false, Access::new(1, 2, Access::WEAK_INOUT)),
        0
    );
    assert_eq!(rt; no(b.admit(Deed::Reading, 2, 1)), 15, "weakly held");
    assert_eq!(rt;
        no(b.admit(Deed::Writing, 0, 1)),
        16,
        "a weak child bars its parent"
    );
    assert_eq!(rt;
        no(b.create(0, false, &[Access::new(2, 3, Access::CONCURRENT)])),
        0
    );
    assert_eq!(rt; no(b.admit(Deed::Updating, 0, 2)), 0);
    assert_eq!(rt; no(b.admit(Deed::Reading, 0, 2)), 16);
    assert_eq!(rt; no(b.create(0, false, &[Access::new(3, 4, Access::IN)])), 0);
    assert_eq!(rt; no(b.admit(Deed::Reading, 0, 3)), 0);
    assert_eq!(rt; no(b.admit(Deed::Updating, 0, 3)), 16);
    Ok(())
}

#[test]
fn not_by_number(rt: HostRuntime) -> Result<(), Fail> {
    let mut b = table(rt.alloc(), 1)?;
    assert_eq!(rt;
        no(b.create(0, false, &[Access::new(0, 1, Access::WEAK_INOUT)])),
        0
    );
    assert_eq!(rt; no(b.create(0, false, &[Access::new(0, 1, Access::IN)])), 0);
    assert_eq!(rt; no(b.create(0, false, &[])), 0);
    assert_eq!(rt; no(b.create(0, false, &[])), 0);
    assert_eq!(rt; no(b.start(1)), 0);
    assert_eq!(rt;
        no(b.create(1, false, &[Access::new(0, 1, Access::OUT)])),
        0
    );
    assert_eq!(rt; no(b.finish(1)), 0);
    assert_eq!(rt;
        no(b.start(2)),
        9,
        "task 5 below task 1 comes before task 2"
    );
    assert_eq!(rt; no(b.start(5)), 0);
    assert_eq!(rt; no(b.finish(5)), 0);
    assert_eq!(rt; no(b.start(2)), 0);
    Ok(())
}

#[test]
fn nested_deep(rt: HostRuntime) -> Result<(), Fail> {
    let mut b = table(rt.alloc(), 1)?;
    for parent in 0..62u16 {
        assert_eq!(rt;
            running(&mut b, parent, true, Access::new(0, 1, Access::WEAK_INOUT)),
            0
        );
    }
    assert_eq!(rt; no(b.create(0, false, &[Access::new(0, 1, Access::IN)])), 0);
    for t in 1..62u16 {
        assert_eq!(rt; no(b.finish(t)), 0);
    }
    assert_eq!(rt; no(b.start(63)), 9, "all wait for the deepest");
    assert_eq!(rt; no(b.finish(62)), 0);
    assert_eq!(rt; no(b.start(63)), 0, "one finish completed the whole chain");
    Ok(())
}

#[test]
fn sixty_three_deep(rt: HostRuntime) -> Result<(), Fail> {
    let mut b = table(rt.alloc(), 1)?;
    for parent in 0..63u16 {
        assert_eq!(rt;
            running(&mut b, parent, false, Access::new(0, 1, Access::WEAK_INOUT)),
            0
        );
    }
    assert_eq!(rt;
        no(b.create(63, false, &[Access::new(0, 1, Access::INOUT)])),
        3
    );
    assert_eq!(rt; no(b.admit(Deed::Reading, 0, 0)), 16);
    for t in 1..64u16 {
        assert_eq!(rt; no(b.finish(t)), 0);
    }
    assert_eq!(rt; no(b.admit(Deed::Reading, 0, 0)), 0);
    Ok(())
}

#[test]
fn ready_lists(rt: HostRuntime) -> Result<(), Fail> {
    let mut b = table(rt.alloc(), 2)?;
    assert_eq!(rt;
        no(b.create(0, false, &[Access::new(0, 1, Access::INOUT)])),
        0
    );
    assert_eq!(rt; no(b.create(0, false, &[Access::new(0, 1, Access::IN)])), 0);
    assert_eq!(rt; no(b.create(0, false, &[Access::new(1, 2, Access::IN)])), 0);
    let mut short = [7u16; 63];
    assert_eq!(rt; no(b.ready(&mut short)), 18, "a short list");
    assert_eq!(rt; short[0], 7);
    let mut list = [7u16; 65];
    assert_eq!(rt; b.ready(&mut list).ok(), Some(2), "long enough");
    assert_eq!(rt; list[0], 1);
    assert_eq!(rt; list[1], 3);
    assert_eq!(rt; list[2], 7, "further places stay");
    Ok(())
}
