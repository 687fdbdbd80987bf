ghost use Rattle.std.specs.Prelude.{◌≡◌, length};
ghost use Rattle.engine.specs.Engines.{KeepsAll};

use engine::engine::Engine;
use stores::store::Store;

// How many cells an engine has. Whatever calls led to it from a new engine, program order gives its cells and the answers of all
// reads, and until task 0 is deeply complete some task can go on.
pub fn settled<S: Store>(engine: &Engine<S>) -> u16
    ensures cells { result ≡ length (S.Store.cells engine.now.store) }
    ensures promised { KeepsAll S.Store S.E.Element engine.now }
{
    engine.cells()
}
