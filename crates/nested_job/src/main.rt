#![tactic(auto)]

use elements::count::Count;
use elements::element::Element;
use engine::call::{Call, Reply, Turn};
use engine::refusal::Refusal;
use kinds::access::Access;
use layers::allowance::Allowance;
use layers::behind::WriteBehind;
use layers::lent::Lent;
use order::room::{MOST_TASKS, Room};
use runs::run::run;
use std::fmt;
use stores::chain::ChainStore;
use stores::fault::Fault;
use stores::record::Record;

// A call, as it is asked.
#[derive(Clone, Copy)]
struct Asked<'a>(Call<'a, Count>);

impl fmt::Display for Asked<'_> {
    fn fmt<W: fmt::Write>(&self, f: &mut fmt::Formatter<W>) -> fmt::Result {
        match &self.0 {
            Call::Create { parent, .. } => write!(f, "task {parent} creates a task"),
            Call::Start { task } => write!(f, "start {task}"),
            Call::Finish { task } => write!(f, "finish {task}"),
            Call::Wait { task } => write!(f, "wait {task}"),
            Call::Resume { task } => write!(f, "resume {task}"),
            Call::Release { task, lo, hi } => write!(f, "task {task} releases {lo} to {hi}"),
            Call::Read { task, cell } => write!(f, "task {task} reads {cell}"),
            Call::Write { task, cell, .. } => write!(f, "task {task} writes {cell}"),
            Call::Update { task, cell, amount } => {
                write!(f, "task {task} updates {cell} by {}", amount.value)
            }
            Call::Look { cell } => write!(f, "look at {cell}"),
            Call::Ready { .. } => write!(f, "ready"),
        }
    }
}

// The answer to a call, in which the ready tasks are only counted.
#[derive(Clone, Copy)]
struct Answered(Result<Reply<Count>, Refusal>);

impl fmt::Display for Answered {
    fn fmt<W: fmt::Write>(&self, f: &mut fmt::Formatter<W>) -> fmt::Result {
        match &self.0 {
            Ok(Reply::Done) => write!(f, "ok"),
            Ok(Reply::Task(task)) => write!(f, "task {task}"),
            Ok(Reply::Value(total)) => write!(f, "value {}", total.value),
            Ok(Reply::Ready { count, .. }) => write!(f, "{count} ready"),
            Err(Refusal::Rule(why)) => write!(f, "no {}", why.number()),
            Err(why @ Refusal::Store(Fault { cause, depth, cell })) => {
                let (number, cause) = (why.number(), cause.number());
                write!(f, "no {number} {cause} {depth} {cell}")
            }
        }
    }
}

fn create<'a>(parent: u16, waits: bool, accesses: &'a [Access]) -> Call<'a, Count> {
    Call::Create {
        parent,
        waits,
        accesses,
    }
}

fn update<'a>(task: u16, cell: u16, value: u64) -> Call<'a, Count> {
    Call::Update {
        task,
        cell,
        amount: Count { value },
    }
}

// The calls of the job: a parent that holds the counters only for its children, two children that update them side by side,
// and a closing task that reads the totals.
fn turns<'a>(
    parent: &'a [Access],
    left: &'a [Access],
    right: &'a [Access],
    closing: &'a [Access],
) -> [Turn<'a, Count>; 24] {
    [
        create(0, true, parent),
        Call::Start { task: 1 },
        create(1, false, left),
        create(1, false, right),
        create(0, false, closing),
        Call::Ready { places: MOST_TASKS },
        Call::Start { task: 4 },
        Call::Start { task: 2 },
        Call::Start { task: 3 },
        update(2, 0, 5),
        update(3, 1, 7),
        update(2, 1, 4),
        update(3, 2, 1),
        Call::Finish { task: 2 },
        Call::Finish { task: 3 },
        Call::Finish { task: 1 },
        Call::Start { task: 4 },
        Call::Read { task: 4, cell: 0 },
        Call::Read { task: 4, cell: 1 },
        Call::Read { task: 4, cell: 2 },
        Call::Finish { task: 4 },
        Call::Wait { task: 0 },
        Call::Resume { task: 0 },
        Call::Finish { task: 0 },
    ]
    .map(Turn::from)
}

// Runs the job with the parent's access of this kind, on the pile that an instrument has.
fn job(rt: &HostRuntime, code: u8) -> anyhow::Result<()> {
    let parent = [Access::new(0, 3, code)];
    let left = [Access::new(0, 2, Access::CONCURRENT)];
    let right = [Access::new(1, 3, Access::CONCURRENT)];
    let closing = [Access::new(0, 3, Access::IN)];
    let mut turns = turns(&parent, &left, &right, &closing);
    let mut heads = [0u16; 3];
    let mut records = [Record::unused(); 16];
    let mut chain = ChainStore::new(&mut heads, &mut records);
    let pile = Allowance::new(WriteBehind::new(Lent { store: &mut chain }), 100);
    let room = Room::reserve(rt.alloc())?;
    let _engine = run(room, pile, &mut turns);
    for turn in &turns {
        println!(rt; "{}: {}", Asked(turn.call), Answered(turn.answer))?;
    }
    Ok(())
}

fn main(rt: HostRuntime) -> anyhow::Result<()> {
    println!(rt; "a parent with weak inout")?;
    job(&rt, Access::WEAK_INOUT)?;
    println!(rt; "the same with weak in")?;
    job(&rt, Access::WEAK_IN)
}
