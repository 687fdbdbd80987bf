use elements::count::Count;
use elements::element::Element;
use elements::span::Span;
use engine::call::{Call, Turn};
use engine::engine::Engine;
use engine::refusal::Refusal;
use kinds::access::Access;
use layers::allowance::Allowance;
use layers::behind::WriteBehind;
use layers::lent::Lent;
use order::room::Room;
use runs::run::run;
use std::test::Fail;
use stores::chain::ChainStore;
use stores::flat::FlatStore;
use stores::record::Record;
use stores::store::Store;

fn count(value: u64) -> Count {
    Count { value }
}

// A refusal as its number, and the store's fault behind it; zeros where the call was accepted. Numbers, since a caller sees these.
fn no<T: Drop>(r: Result<T, Refusal>) -> (u8, u8, u8, u16) {
    match r {
        Ok(_) => (0, 0, 0, 0),
        Err(Refusal::Store(f)) => (17, f.cause.number(), f.depth, f.cell),
        Err(why) => (why.number(), 0, 0, 0),
    }
}

const OK: (u8, u8, u8, u16) = (0, 0, 0, 0);

#[test]
fn faults_arrive_whole(rt: HostRuntime) -> Result<(), Fail> {
    let mut heads = [0u16; 3];
    let mut records = [Record::unused(); 1];
    let mut chain = ChainStore::new(&mut heads, &mut records);
    let pile = Allowance::new(WriteBehind::new(Lent { store: &mut chain }), 3);
    let mut e = Engine::new(Room::reserve(rt.alloc())?, pile);
    assert_eq!(rt; no(e.write(0, 0, count(4))), OK);
    assert_eq!(rt; no(e.write(0, 1, count(5))), OK);
    assert_eq!(rt;
        no(e.update(0, 2, count(6))),
        (17, 1, 2, 1),
        "records used up, for the held cell"
    );
    assert_eq!(rt; e.look(2).ok(), Some(count(0)));
    assert_eq!(rt; no(e.update(0, 1, count(2))), OK);
    assert_eq!(rt;
        no(e.update(0, 1, count(2))),
        (17, 2, 0, 1),
        "allowance spent"
    );
    assert_eq!(rt;
        no(e.write(0, 3, count(1))),
        (14, 0, 0, 0),
        "the engine asks for the cell before the store does"
    );
    assert_eq!(rt; e.read(0, 0).ok(), Some(count(4)));
    assert_eq!(rt; e.look(1).ok(), Some(count(7)));
    Ok(())
}

#[test]
fn refusals_alter_nothing(rt: HostRuntime) -> Result<(), Fail> {
    let mut cells = [count(3), count(4)];
    let pile = Allowance::new(WriteBehind::new(FlatStore::new(&mut cells)), 2);
    let mut e = Engine::new(Room::reserve(rt.alloc())?, pile);
    assert_eq!(rt;
        no(e.create(0, false, &[Access::new(0, 1, Access::IN)])),
        OK
    );
    assert_eq!(rt; no(e.start(1)), OK);
    assert_eq!(rt; no(e.write(1, 0, count(9))), (15, 0, 0, 0));
    assert_eq!(rt; no(e.update(1, 1, count(9))), (15, 0, 0, 0));
    assert_eq!(rt; no(e.write(0, 0, count(9))), (16, 0, 0, 0));
    assert_eq!(rt; no(e.write(2, 0, count(9))), (1, 0, 0, 0));
    assert_eq!(rt; e.read(1, 0).ok(), Some(count(3)));
    assert_eq!(rt; no(e.finish(1)), OK);
    assert_eq!(rt; no(e.read(1, 0)), (2, 0, 0, 0));
    assert_eq!(rt; no(e.write(0, 0, count(9))), OK);
    assert_eq!(rt;
        no(e.write(0, 1, count(8))),
        OK,
        "no refusal spent the allowance"
    );
    assert_eq!(rt; no(e.write(0, 1, count(7))), (17, 2, 0, 1));
    assert_eq!(rt; e.look(0).ok(), Some(count(9)));
    assert_eq!(rt; e.look(1).ok(), Some(count(8)));
    Ok(())
}

#[test]
fn spans_on_a_flat_store(rt: HostRuntime) -> Result<(), Fail> {
    let mut cells = [Span::at_rest(); 2];
    let mut e = Engine::new(Room::reserve(rt.alloc())?, FlatStore::new(&mut cells));
    assert_eq!(rt; no(e.update(0, 0, Span { first: 3, last: 5 })), OK);
    assert_eq!(rt; no(e.update(0, 0, Span { first: 1, last: 4 })), OK);
    assert_eq!(rt; e.read(0, 0).ok(), Some(Span { first: 1, last: 5 }));
    assert_eq!(rt; e.look(1).ok(), Some(Span::at_rest()));
    assert_eq!(rt; no(e.look(2)), (14, 0, 0, 0));
    Ok(())
}

#[test]
fn limits(rt: HostRuntime) -> Result<(), Fail> {
    let mut cells = [count(0)];
    let mut e = Engine::new(Room::reserve(rt.alloc())?, FlatStore::new(&mut cells));
    let a = Access::new(0, 1, Access::IN);
    assert_eq!(rt; no(e.create(0, false, &[a, a, a, a, a, a, a, a])), OK);
    assert_eq!(rt;
        no(e.create(0, false, &[a, a, a, a, a, a, a, a, a])),
        (4, 0, 0, 0)
    );
    for _ in 2..64u16 {
        assert_eq!(rt; no(e.create(0, false, &[])), OK);
    }
    assert_eq!(rt; no(e.create(0, false, &[])), (3, 0, 0, 0));
    let mut list = [9u16; 64];
    assert_eq!(rt; e.ready(&mut list).ok(), Some(63), "long enough");
    assert_eq!(rt; list[0], 1);
    assert_eq!(rt; list[63], 9);
    Ok(())
}

#[test]
fn a_run_notes_every_answer(rt: HostRuntime) -> Result<(), Fail> {
    let mut cells = [count(0); 4];
    let writer = [Access::new(0, 2, Access::INOUT)];
    let reader = [Access::new(1, 3, Access::OUT)];
    let mut turns = [
        Turn::from(Call::Create {
            parent: 0,
            waits: false,
            accesses: &writer,
        }),
        Turn::from(Call::Create {
            parent: 0,
            waits: false,
            accesses: &reader,
        }),
        Turn::from(Call::Start { task: 2 }),
        Turn::from(Call::Start { task: 1 }),
        Turn::from(Call::Write {
            task: 1,
            cell: 1,
            value: count(7),
        }),
        Turn::from(Call::Ready { places: 63 }),
    ];
    let e = run(
        Room::reserve(rt.alloc())?,
        FlatStore::new(&mut cells),
        &mut turns,
    );
    assert_eq!(rt; no(turns[0].answer), OK);
    assert_eq!(rt; no(turns[1].answer), OK);
    assert_eq!(rt; no(turns[2].answer), (9, 0, 0, 0));
    assert_eq!(rt; no(turns[3].answer), OK);
    assert_eq!(rt; no(turns[4].answer), OK);
    assert_eq!(rt; no(turns[5].answer), (18, 0, 0, 0));
    assert_eq!(rt; e.look(1).ok(), Some(count(7)));
    Ok(())
}
