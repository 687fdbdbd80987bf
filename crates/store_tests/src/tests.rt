use crate::deep::Deep;
use elements::count::Count;
use elements::element::Element;
use elements::span::Span;
use layers::allowance::Allowance;
use layers::behind::WriteBehind;
use layers::lent::Lent;
use std::test::Fail;
use stores::chain::ChainStore;
use stores::fault::{Cause, Fault};
use stores::flat::FlatStore;
use stores::record::Record;
use stores::store::Store;
use stores::update::update;

fn count(value: u64) -> Count {
    Count { value }
}

fn blank() -> Record<Count> {
    Record {
        value: count(9),
        next: 9,
    }
}

// The fault as its three numbers, and zeros where there is none. Numbers, since the rules fix these and a caller sees them.
fn numbers(r: Result<(), Fault>) -> (u8, u8, u16) {
    r.err()
        .map_or((0, 0, 0), |f| (f.cause.number(), f.depth, f.cell))
}

fn wrote<S: Store<E = Count>>(store: &mut S, cell: u16, value: u64) -> (u8, u8, u16) {
    numbers(store.write(cell, Count { value }))
}

#[test]
fn counts_wrap(rt: HostRuntime) {
    let v = Count::at_rest().update(count(u64::MAX)).update(count(3));
    assert_eq!(rt; v.value, 2);
}

#[test]
fn spans_join(rt: HostRuntime) {
    let a = Span { first: 3, last: 5 };
    let b = Span { first: 1, last: 4 };
    let v = Span::at_rest().update(a).update(b);
    assert_eq!(rt; v.first, 1);
    assert_eq!(rt; v.last, 5);
    let w = Span::at_rest().update(b).update(a);
    assert_eq!(rt; w, v);
}

#[test]
fn numbers_both_ways(rt: HostRuntime) {
    assert_eq!(rt; Count::WIDTH, 1);
    assert_eq!(rt; Span::WIDTH, 2);
    assert_eq!(rt; Count::from_numbers(&[8]), Some(count(8)));
    assert_eq!(rt; Count::from_numbers(&[]), None);
    assert_eq!(rt; Count::from_numbers(&[8, 9]), None);
    assert_eq!(rt;
        Span::from_numbers(&[8, 9]),
        Some(Span { first: 8, last: 9 })
    );
    assert_eq!(rt; Span::from_numbers(&[8]), None);
    assert_eq!(rt; Span::from_numbers(&[8, 9, 10]), None);
    let v = Span { first: 8, last: 9 };
    assert_eq!(rt; v.number(0), 8);
    assert_eq!(rt; v.number(1), 9);
    assert_eq!(rt; count(8).number(0), 8);
}

#[test]
fn flat_cells(rt: HostRuntime) {
    let mut cells = [count(1), count(2)];
    let mut store = FlatStore::new(&mut cells);
    assert_eq!(rt; store.count(), 2);
    assert_eq!(rt; wrote(&mut store, 1, 5), (0, 0, 0));
    assert_eq!(rt; wrote(&mut store, 2, 5), (3, 0, 2));
    assert_eq!(rt; store.read(0), count(1));
    assert_eq!(rt; store.read(1), count(5));
    assert_eq!(rt; store.read(2), count(0));
}

#[test]
fn empty_stores(rt: HostRuntime) {
    let mut none: [Count; 0] = [];
    let mut flat = FlatStore::new(&mut none);
    assert_eq!(rt; flat.count(), 0);
    assert_eq!(rt; wrote(&mut flat, 0, 5), (3, 0, 0));
    assert_eq!(rt; flat.read(0), count(0));
    let mut heads = [4u16; 2];
    let mut records: [Record<Count>; 0] = [];
    let mut chain = ChainStore::new(&mut heads, &mut records);
    assert_eq!(rt; chain.count(), 2);
    assert_eq!(rt; wrote(&mut chain, 1, 5), (1, 0, 1));
    assert_eq!(rt; wrote(&mut chain, 2, 5), (3, 0, 2));
    assert_eq!(rt; chain.read(1), count(0));
}

#[test]
fn chain_links(rt: HostRuntime) {
    let mut heads = [4u16; 2];
    let mut records = [blank(); 3];
    let mut chain = ChainStore::new(&mut heads, &mut records);
    assert_eq!(rt; wrote(&mut chain, 1, 5), (0, 0, 0));
    assert_eq!(rt; wrote(&mut chain, 1, 6), (0, 0, 0));
    assert_eq!(rt; chain.read(1), count(6));
    assert_eq!(rt; chain.read(0), count(0));
    assert_eq!(rt; heads[0], 0);
    assert_eq!(rt; heads[1], 2);
    assert_eq!(rt; records[0].next, 0);
    assert_eq!(rt; records[1].next, 1);
    assert_eq!(rt; records[1].value, count(6));
    assert_eq!(rt; records[2].next, 9);
}

#[test]
fn pile_faults(rt: HostRuntime) {
    let mut heads = [4u16; 3];
    let mut records = [blank(); 1];
    let mut chain = ChainStore::new(&mut heads, &mut records);
    let mut pile = Allowance::new(WriteBehind::new(Lent { store: &mut chain }), 4);
    assert_eq!(rt; wrote(&mut pile, 2, 5), (0, 0, 0));
    assert_eq!(rt;
        wrote(&mut pile, 1, 6),
        (0, 0, 0),
        "the held cell 2 takes the only record"
    );
    assert_eq!(rt;
        wrote(&mut pile, 0, 7),
        (1, 2, 1),
        "the held cell 1 finds none"
    );
    assert_eq!(rt;
        wrote(&mut pile, 1, 8),
        (0, 0, 0),
        "the held cell stays open"
    );
    assert_eq!(rt; wrote(&mut pile, 3, 8), (3, 0, 3));
    assert_eq!(rt;
        wrote(&mut pile, 1, 9),
        (0, 0, 0),
        "no refusal spent a write"
    );
    assert_eq!(rt; wrote(&mut pile, 1, 9), (2, 0, 1));
    assert_eq!(rt;
        wrote(&mut pile, 3, 9),
        (3, 0, 3),
        "no such cell comes before all else"
    );
    assert_eq!(rt; pile.read(1), count(9));
    assert_eq!(rt; pile.read(2), count(5));
    assert_eq!(rt; pile.read(3), count(0));
}

#[test]
fn depth_stays_at_255(rt: HostRuntime) {
    let mut one = Allowance::new(Deep, 5);
    assert_eq!(rt; wrote(&mut one, 0, 1), (1, 255, 0));
    let mut three = Allowance::new(Allowance::new(Allowance::new(Deep, 5), 5), 5);
    assert_eq!(rt; wrote(&mut three, 0, 1), (1, 255, 0));
    assert_eq!(rt; wrote(&mut three, 1, 1), (3, 0, 1));
}

#[test]
fn updates_on_a_pile(rt: HostRuntime) {
    let mut cells = [Span::at_rest(); 2];
    let mut pile = Allowance::new(WriteBehind::new(FlatStore::new(&mut cells)), 9);
    assert_eq!(rt;
        numbers(update(&mut pile, 1, Span { first: 3, last: 5 })),
        (0, 0, 0)
    );
    assert_eq!(rt;
        numbers(update(&mut pile, 1, Span { first: 1, last: 4 })),
        (0, 0, 0)
    );
    assert_eq!(rt; pile.read(1), Span { first: 1, last: 5 });
    assert_eq!(rt;
        numbers(update(&mut pile, 2, Span { first: 1, last: 4 })),
        (3, 0, 2)
    );
    assert_eq!(rt; pile.read(2), Span::at_rest());
}

#[test]
fn more_places_than_cells(rt: HostRuntime) -> Result<(), Fail> {
    let mut cells = vec![in rt.alloc(); Count { value: 3 }; 65537]?;
    let mut store = FlatStore::new(&mut cells);
    assert_eq!(rt; store.count(), 65535);
    assert_eq!(rt; wrote(&mut store, 65534, 5), (0, 0, 0));
    assert_eq!(rt; wrote(&mut store, 65535, 5), (3, 0, 65535));
    assert_eq!(rt; store.read(65534), count(5));
    assert_eq!(rt; store.read(65535), count(0));
    assert_eq!(rt; cells.get(65535).copied(), Some(count(3)));
    Ok(())
}

#[test]
fn more_heads_and_records(rt: HostRuntime) -> Result<(), Fail> {
    let mut heads = vec![in rt.alloc(); 7u16; 65537]?;
    let mut records = vec![in rt.alloc(); Record {
        value: Count { value: 3 },
        next: 0
    }; 65537]?;
    let mut chain = ChainStore::new(&mut heads, &mut records);
    assert_eq!(rt; chain.count(), 65535);
    assert_eq!(rt; chain.read(65534), count(0));
    assert_eq!(rt; wrote(&mut chain, 65534, 5), (0, 0, 0));
    assert_eq!(rt; chain.read(65534), count(5));
    for _ in 0..65534 {
        let _ = chain.write(0, Count { value: 4 });
    }
    assert_eq!(rt; chain.read(0), count(4));
    assert_eq!(rt; wrote(&mut chain, 0, 6), (1, 0, 0));
    assert_eq!(rt;
        heads.get(65535).copied(),
        Some(7),
        "further heads are as found"
    );
    assert_eq!(rt; heads.get(0).copied(), Some(65535));
    Ok(())
}
