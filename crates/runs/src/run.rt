ghost use Rattle.std.specs.Prelude.{◌≡◌, length};
ghost use Rattle.order.specs.Tasks.{new};
ghost use Rattle.order.specs.View.{view};
ghost use Rattle.engine.specs.declared.call.Call.TheVariants.{Ready};
ghost use Rattle.engine.specs.Engines.{Keeps, Led, LedNew};
ghost use Rattle.engine.specs.declared.call.Reply.TheVariants.{Done};
ghost use Rattle.engine.specs.Run.{calls_of, noted};

use engine::call::{Call, Reply, Turn};
use engine::engine::Engine;
use engine::refusal::Refusal;
use order::room::{MOST_TASKS, Room};
use stores::store::Store;

// The tasks that are ready, in a list of so many places; 64 are enough for any number of them.
fn list_ready<S: Store>(engine: &Engine<S>, places: usize) -> Result<Reply<S::E>, Refusal>
    ensures { Led S.Store S.E.Element engine.now (Ready places) result engine.now }
{
    let mut list = [0; MOST_TASKS];
    let count = engine.ready(&mut list[..places.min(MOST_TASKS)])?;
    Ok(Reply::Ready { count, list })
}

// The reply of a call that has nothing to tell. No `map`: the check does not follow a function whose result has a type parameter.
fn done<E>(answer: Result<(), Refusal>) -> Result<Reply<E>, Refusal>
    ensures { result ≡ noted (λ _. Done) answer }
{
    answer?;
    Ok(Reply::Done)
}

// Performs a call by the public call of its name. A `match` and no closures, since a call is data that a list holds and a caller reads.
fn perform<S: Store>(engine: &mut Engine<S>, call: &Call<S::E>) -> Result<Reply<S::E>, Refusal>
    ensures { Led S.Store S.E.Element engine.old call.now result engine.new }
{
    match call {
        Call::Create {
            parent,
            waits,
            accesses,
        } => Ok(Reply::Task(engine.create(*parent, *waits, accesses)?)),
        Call::Start { task } => done(engine.start(*task)),
        Call::Finish { task } => done(engine.finish(*task)),
        Call::Wait { task } => done(engine.wait(*task)),
        Call::Resume { task } => done(engine.resume(*task)),
        Call::Release { task, lo, hi } => done(engine.release(*task, *lo, *hi)),
        Call::Read { task, cell } => Ok(Reply::Value(engine.read(*task, *cell)?)),
        Call::Write { task, cell, value } => done(engine.write(*task, *cell, *value)),
        Call::Update { task, cell, amount } => done(engine.update(*task, *cell, *amount)),
        Call::Look { cell } => Ok(Reply::Value(engine.look(*cell)?)),
        Call::Ready { places } => list_ready(engine, *places),
    }
}

// Performs the call of one turn, and notes its answer.
fn take_turn<S: Store>(engine: &mut Engine<S>, turn: &mut Turn<S::E>)
    ensures one { Led S.Store S.E.Element engine.old turn.old.call turn.new.answer engine.new }
    ensures call { turn.new.call ≡ turn.old.call }
{
    turn.answer = perform(engine, &turn.call);
}

// Performs the call of each turn in order on a new engine.
fn run_turns<S: Store>(engine: &mut Engine<S>, turns: &mut [Turn<S::E>])
    requires { view engine.old.table ≡ new (length (S.Store.cells engine.old.store)) }
    ensures ran { LedNew S.Store S.E.Element engine.old.store turns.new engine.new }
    ensures calls { calls_of turns.new ≡ calls_of turns.old }
    ensures promised { Keeps S.Store S.E.Element engine.old.store turns.new engine.new }
{
    for turn in turns.iter_mut() {
        take_turn(engine, turn);
    }
}

// Performs the call of each turn on a new engine, and notes its answer there.
pub fn run<S: Store>(room: Room, store: S, turns: &mut [Turn<S::E>]) -> Engine<S>
    ensures ran { LedNew S.Store S.E.Element store turns.new result }
    ensures promised { Keeps S.Store S.E.Element store turns.new result }
    ensures calls { calls_of turns.new ≡ calls_of turns.old }
{
    let mut engine = Engine::new(room, store);
    run_turns(&mut engine, turns);
    engine
}
