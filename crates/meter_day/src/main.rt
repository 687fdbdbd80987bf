#![tactic(auto)]

use elements::count::Count;
use elements::element::Element;
use elements::span::Span;
use layers::allowance::Allowance;
use layers::behind::WriteBehind;
use layers::lent::Lent;
use std::{fmt, io};
use stores::chain::ChainStore;
use stores::fault::{Cause, Fault};
use stores::record::Record;
use stores::store::Store;
use stores::update::update;
use writes::pile::Pile;

// Pulses that came in at a minute of the day.
#[derive(Clone, Copy)]
struct Event {
    minute: u64,
    counter: u16,
    pulses: u64,
}

impl fmt::Display for Event {
    fn fmt<W: fmt::Write>(&self, f: &mut fmt::Formatter<W>) -> fmt::Result {
        let Event {
            minute,
            counter,
            pulses,
        } = *self;
        write!(f, "minute {minute}: counter {counter}, pulses {pulses}")
    }
}

// A write that was refused.
#[derive(Clone, Copy)]
struct Refused(Fault);

impl fmt::Display for Refused {
    fn fmt<W: fmt::Write>(&self, f: &mut fmt::Formatter<W>) -> fmt::Result {
        let Fault { cause, depth, cell } = self.0;
        let words = match cause {
            Cause::RecordsUsedUp => "records used up",
            Cause::AllowanceSpent => "allowance spent",
            Cause::NoSuchCell => "no such cell",
        };
        let number = cause.number();
        write!(f, "cause {number} ({words}), depth {depth}, cell {cell}")
    }
}

fn came(minute: u64, counter: u16, pulses: u64) -> Event {
    Event {
        minute,
        counter,
        pulses,
    }
}

// The day's pulses: they meet every fault that such a pile has.
fn day() -> [Event; 12] {
    [
        came(370, 0, 3),
        came(371, 0, 4),
        came(402, 1, 2),
        came(455, 3, 1),
        came(460, 2, 5),
        came(518, 0, 1),
        came(600, 1, 1),
        came(601, 0, 2),
        came(612, 0, 1),
        came(700, 0, 1),
        came(701, 0, 1),
        came(702, 9, 1),
    ]
}

// Counts the pulses, and notes the minute where they were counted.
fn take<M: Store<E = Count>, T: Store<E = Span>>(
    meters: &mut M,
    times: &mut T,
    event: Event,
) -> Result<u64, Fault> {
    let counter = event.counter;
    let pulses = Count {
        value: event.pulses,
    };
    let minute = Span {
        first: event.minute,
        last: event.minute,
    };
    update(meters, counter, pulses)?;
    update(times, 0, minute)?;
    Ok(meters.read(counter).value)
}

fn print_totals<M: Store<E = Count>, T: Store<E = Span>>(
    rt: &HostRuntime,
    meters: &M,
    times: &T,
) -> io::Result<()> {
    for counter in 0..meters.count() {
        println!(rt; "counter {counter} ends at {}", meters.read(counter).value)?;
    }
    let Span { first, last } = times.read(0);
    println!(rt; "pulses from minute {first} to minute {last}")
}

// So many writes, held back before they reach the chain store.
fn pile<'a, 'b, E: Element>(chain: &'b mut ChainStore<'a, E>, writes: u64) -> Pile<'a, 'b, E> {
    Allowance::new(WriteBehind::new(Lent { store: chain }), writes)
}

// A meter's day: three counters, with three records and eight writes; and the span of minutes, with room to spare.
fn main(rt: HostRuntime) -> io::Result<()> {
    let mut heads = [7u16; 3];
    let mut records = [Record::unused(); 3];
    let mut counters = ChainStore::new(&mut heads, &mut records);
    let mut meters = pile(&mut counters, 8);

    let mut span_heads = [7u16; 1];
    let mut span_records = [Record::unused(); 1];
    let mut spans = ChainStore::new(&mut span_heads, &mut span_records);
    let mut times = pile(&mut spans, 100);

    for event in day() {
        println!(rt; "{event}")?;
        match take(&mut meters, &mut times, event) {
            Ok(total) => println!(rt; "  counted: {total}")?,
            Err(fault) => println!(rt; "  refused: {}", Refused(fault))?,
        }
    }
    print_totals(&rt, &meters, &times)
}
