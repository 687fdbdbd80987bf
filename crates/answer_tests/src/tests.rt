use answers::line::{write_answer, write_answers};
use elements::count::Count;
use elements::span::Span;
use engine::call::{Call, Reply, Turn};
use engine::engine::Engine;
use engine::refusal::Refusal;
use kinds::access::Access;
use order::room::Room;
use runs::run::run;
use std::test::Fail;
use stores::fault::{Cause, Fault};
use stores::flat::FlatStore;

fn took(reply: Reply<Count>) -> Result<Reply<Count>, Refusal> {
    Ok(reply)
}

fn refused(why: Refusal) -> Result<Reply<Count>, Refusal> {
    Err(why)
}

#[test]
fn replies(rt: HostRuntime) -> Result<(), Fail> {
    let mut out = String::new(rt.alloc());
    write_answer(&mut out, &took(Reply::Done))?;
    write_answer(&mut out, &took(Reply::Task(60)))?;
    write_answer(&mut out, &took(Reply::Value(Count { value: 0 })))?;
    write_answer(&mut out, &took(Reply::Value(Count { value: u64::MAX })))?;
    assert_eq!(rt;
        out.as_str(),
        "ok\ntask 60\nvalue 0\nvalue 18446744073709551615\n"
    );
    Ok(())
}

#[test]
fn ready_lists(rt: HostRuntime) -> Result<(), Fail> {
    let mut list = [7u16; 64];
    list[1] = 10;
    list[2] = 65535;
    let mut out = String::new(rt.alloc());
    write_answer(&mut out, &took(Reply::Ready { count: 0, list }))?;
    write_answer(&mut out, &took(Reply::Ready { count: 3, list }))?;
    assert_eq!(rt; out.as_str(), "ready\nready 7 10 65535\n");
    let mut all = String::new(rt.alloc());
    write_answer(
        &mut all,
        &took(Reply::Ready {
            count: 65,
            list: [7; 64],
        }),
    )?;
    assert_eq!(rt; all.len(), 134, "64 places are all that there are");
    Ok(())
}

#[test]
fn spans_have_two_numbers(rt: HostRuntime) -> Result<(), Fail> {
    let span = Span { first: 3, last: 50 };
    let answer: Result<Reply<Span>, Refusal> = Ok(Reply::Value(span));
    let mut out = String::new(rt.alloc());
    write_answer(&mut out, &answer)?;
    assert_eq!(rt; out.as_str(), "value 3 50\n");
    Ok(())
}

#[test]
fn refusals(rt: HostRuntime) -> Result<(), Fail> {
    let fault = Fault {
        cause: Cause::AllowanceSpent,
        depth: 1,
        cell: 300,
    };
    let mut out = String::new(rt.alloc());
    write_answer(
        &mut out,
        &refused(Refusal::Rule(order::refusal::Refusal::NoSuchTask)),
    )?;
    write_answer(&mut out, &refused(Refusal::Store(fault)))?;
    assert_eq!(rt; out.as_str(), "no 1\nno 17 2 1 300\n");
    Ok(())
}

#[test]
fn answers_of_a_run(rt: HostRuntime) -> Result<(), Fail> {
    let accesses = [Access::new(1, 2, Access::INOUT)];
    let mut turns = [
        Turn::from(Call::Create {
            parent: 0,
            waits: false,
            accesses: &accesses,
        }),
        Turn::from(Call::Ready { places: 64 }),
        Turn::from(Call::Start { task: 1 }),
        Turn::from(Call::Update {
            task: 1,
            cell: 1,
            amount: Count { value: 12 },
        }),
        Turn::from(Call::Read { task: 1, cell: 1 }),
        Turn::from(Call::Look { cell: 2 }),
        Turn::from(Call::Start { task: 2 }),
    ];
    let mut cells = [Count { value: 4 }; 2];
    run(
        Room::reserve(rt.alloc())?,
        FlatStore::new(&mut cells),
        &mut turns,
    );
    let mut out = String::from_str(rt.alloc(), "run\n")?;
    write_answers(&mut out, &turns)?;
    assert_eq!(rt;
        out.as_str(),
        "run\ntask 1\nready 1\nok\nok\nvalue 16\nno 14\nno 1\n"
    );
    Ok(())
}
