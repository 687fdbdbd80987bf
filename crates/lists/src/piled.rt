ghost use Rattle.std.specs.Prelude.{◌≡◌, ◌≤◌, length};
ghost use Rattle.engine.specs.Run.{calls_of};
ghost use Rattle.lists.specs.Running.{RanPiledBy};

use elements::element::Element;
use engine::call::Turn;
use layers::allowance::Allowance;
use layers::behind::WriteBehind;
use layers::lent::Lent;
use order::room::Room;
use runs::run::run;
use stores::chain::ChainStore;
use stores::record::Record;

// The writes that a list may make.
const ALLOWANCE: u64 = 1000;

// The calls of the turns on a new pile, with a cell for each head and 64 records.
pub(crate) fn run_piled<E: Element>(
    room: Room,
    heads: &mut [u16],
    records: &mut [Record<E>],
    turns: &mut [Turn<E>],
)
    requires few { length heads.old ≤ 65535 }
    requires records { length records.old ≡ 64 }
    ensures ran { RanPiledBy E.Element (length heads.old) turns.new }
    ensures calls { calls_of turns.new ≡ calls_of turns.old }
{
    let mut chain = ChainStore::new(heads, records);
    let pile = Allowance::new(WriteBehind::new(Lent { store: &mut chain }), ALLOWANCE);
    let _engine = run(room, pile, turns);
}
