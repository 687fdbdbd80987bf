ghost use Rattle.std.specs.Prelude.{IfOk};
ghost use Rattle.engine.specs.Run.{calls_of};
ghost use Rattle.lists.specs.Running.{AllLent};

use calls::written::Written;
use elements::element::Element;
use engine::call::{Call, Turn};
use std::alloc::{AllocError, Global};

// A turn for each call, with a place for its answer.
pub(crate) fn turns_of<'a, E: Element>(
    heap: Global,
    calls: &'a [Written<E>],
) -> Result<Vec<Turn<'a, E>>, AllocError>
    ensures { IfOk result (λ v. AllLent calls.now (calls_of v.items)) }
{
    calls
        .iter()
        .map(|written| Turn::from(Call::from(written)))
        .collect(heap)
}
