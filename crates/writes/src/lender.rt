ghost use Rattle.std.specs.Prelude.{◌≡◌, slice_set};
ghost use Rattle.writes.specs.Lender.{flat_verdict, chained, chains_verdict, unused};
ghost use Rattle.writes.specs.Writes.{all_asked, all_changed, Answered};

use crate::each::write_each;
use crate::turn::Turn;
use elements::element::Element;
use stores::chain::ChainStore;
use stores::flat::FlatStore;
use stores::record::Record;

// Two functions, not one over both stores: what the caller lends and then has is one list here and two lists there.

// Writes on the caller's own cells, and what the caller then has there.
pub fn write_flat<E: Element>(places: &mut [E], turns: &mut [Turn<E>])
    ensures answered { Answered flat_verdict slice_set places.old turns.new }
    ensures places { places.new ≡ all_changed slice_set places.old turns.new }
    ensures asked { all_asked turns.new ≡ all_asked turns.old }
{
    let mut flat = FlatStore::new(places);
    write_each(&mut flat, turns);
}

// Writes on a new chain store, and what the caller then has in its heads and records.
pub fn write_chain<E: Element>(heads: &mut [u16], records: &mut [Record<E>], turns: &mut [Turn<E>])
    ensures answered { Answered chains_verdict chained (unused heads.old records.old) turns.new }
    ensures heads { heads.new ≡ (all_changed chained (unused heads.old records.old) turns.new).heads }
    ensures records { records.new ≡ (all_changed chained (unused heads.old records.old) turns.new).records }
    ensures asked { all_asked turns.new ≡ all_asked turns.old }
{
    let mut chain = ChainStore::new(heads, records);
    write_each(&mut chain, turns);
}
