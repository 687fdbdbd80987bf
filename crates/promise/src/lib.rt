// Why the order rules are right: program order and progress, over any values with a commuting update.
#![tactic(auto)]

ghost use Rattle.promise.specs.Promise.{Commutes, CompleteByChildren, Promise};
ghost use Rattle.promise.specs.Worked.{WorkedCases};

// Cells' values: one at rest, and an update by an amount that commutes.
pub trait Updates: Sized {
    ghost rest: { Self };

    ghost updated: { Self → Self → Self };

    ghost commutes: { Commutes updated };
}

// Every history that runs by the order rules replays in program order, and never gets stuck.
pub fn promise_stands<V: Updates>()
    ensures { Promise V.Updates.rest V.Updates.updated }
{}

// Deep completion, which looks at all descendants, is also said of the children alone.
pub fn complete_by_children<V: Updates>()
    ensures { CompleteByChildren V.Updates.rest V.Updates.updated }
{}

// What the rules answer in cases that are easily got wrong.
pub fn worked_cases()
    ensures { WorkedCases }
{}
