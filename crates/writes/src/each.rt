ghost use Rattle.std.specs.Prelude.{◌≡◌};
ghost use Rattle.stores.specs.Members.{WroteOn};
ghost use Rattle.writes.specs.Writes.{WentOn, all_asked};

use crate::turn::Turn;
use stores::store::Store;

// Asks the store for the write of one turn, and notes its answer.
fn take_turn<S: Store>(store: &mut S, turn: &mut Turn<S::E>)
    ensures wrote { WroteOn S.Store store.old turn.old.cell turn.old.value turn.new.answer store.new }
    ensures cell { turn.new.cell ≡ turn.old.cell }
    ensures value { turn.new.value ≡ turn.old.value }
{
    turn.answer = store.write(turn.cell, turn.value);
}

// Asks for each write in order.
pub fn write_each<S: Store>(store: &mut S, turns: &mut [Turn<S::E>])
    ensures went { WentOn S.Store store.old turns.new store.new }
    ensures asked { all_asked turns.new ≡ all_asked turns.old }
{
    for turn in turns.iter_mut() {
        take_turn(store, turn);
    }
}
