// Whole lives of tasks on engines over a flat store of counts, for the benchmark to time.
#![tactic(auto)]

ghost use Rattle.std.specs.Prelude.{◌≡◌, ◌+◌, ◌*◌, ◌<◌, ◌≤◌, true, ◌⊎◌, length, is_ok, IfOk, IfSome, IsSome, IsTrue, ◌↔◌, if◌then◌else◌, None, Ok, slice_set};
ghost use Rattle.order.specs.Tasks.{count};
ghost use Rattle.order.specs.View.{root, view};
ghost use Rattle.stores.specs.Members.{updated_at};
ghost use Rattle.lives.specs.Crowd.{Calm, born, fits};

use elements::count::Count;
use elements::element::Element;
use engine::engine::Engine;
use engine::refusal::Refusal;
use kinds::access::Access;
use order::room::{MOST_TASKS, Room};
use std::alloc::{AllocError, Global};
use stores::flat::FlatStore;
use stores::store::Store;

// Task 0 creates a task that will use the cell.
fn create_task<S: Store>(engine: &mut Engine<S>, cell: u16) -> Result<u16, Refusal>
    requires rooted { (view engine.old.table).task 0 ≡ root engine.old.table.cells }
    requires room { count (view engine.old.table) < 64 }
    requires exists { cell < engine.old.table.cells }
    requires ends { cell < 65535 }
    ensures number { result ≡ Ok (count (view engine.old.table)) }
    ensures tasks { view engine.new.table ≡ born cell (view engine.old.table) }
    ensures store { engine.new.store ≡ engine.old.store }
{
    let access = [Access {
        lo: cell,
        hi: cell + 1,
        code: Access::INOUT,
    }];
    engine.create(0, false, &access)
}

// One task's life: it is created with the cell, starts, updates it by the amount and finishes.
fn live<S: Store>(engine: &mut Engine<S>, cell: u16, amount: S::E) -> Result<(), Refusal>
    requires calm { Calm cell 0 (view engine.old.table) }
    requires room { count (view engine.old.table) < 64 }
    requires open { S.Store.verdict engine.old.store cell ≡ None }
    requires ends { cell < 65535 }
    ensures accepted { is_ok result ≡ true }
    ensures calm { Calm cell 0 (view engine.new.table) }
    ensures one { count (view engine.new.table) ≡ count (view engine.old.table) + 1 }
    ensures cells { S.Store.cells engine.new.store ≡ slice_set (S.Store.cells engine.old.store) cell (updated_at S.Store S.E.Element engine.old.store cell amount) }
    ensures took { S.Store.took engine.old.store cell (updated_at S.Store S.E.Element engine.old.store cell amount) engine.new.store }
{
    let task = create_task(engine, cell)?;
    engine.start(task)?;
    engine.update(task, cell, amount)?;
    engine.finish(task)
}

// What each engine of a run is to bear: so many lives on one cell, beside so many tasks that are alive, task 0 among them.
#[derive(Clone, Copy)]
struct Crowd {
    cell: u16,
    alive: u16,
    lives: u16,
    ghost others: { 0 < cell },
    ghost ends: { cell < 65535 },
    ghost rooted: { 1 ≤ alive },
    ghost room: { alive + lives ≤ 64 },
}

impl Crowd {
    // Each life is on the last of the cells, and the other tasks are on the others. None where that doesn't fit on an engine.
    fn new(cells: u16, alive: u16, lives: u16) -> Option<Crowd>
        ensures none { IsSome result ↔ IsTrue (fits cells alive lives) }
        ensures some { IfSome result (λ c. (c.cell + 1 ≡ cells) × (c.alive ≡ alive) × (c.lives ≡ lives)) }
    {
        if cells < 2 || alive < 1 || usize::from(alive) + usize::from(lives) > MOST_TASKS {
            return None;
        }
        Some(Crowd {
            cell: cells - 1,
            alive,
            lives,
        })
    }

    // The lives on a new engine; answers how many were accepted throughout.
    fn round(self, room: Room, places: &mut [Count]) -> u16
        requires { self.cell < length places.old }
        ensures { result ≡ self.lives }
    {
        let mut engine = Engine::new(room, FlatStore::new(places));
        for k in 1..self.alive {
            let _ = create_task(&mut engine, k % self.cell);
        }
        let mut lived = 0;
        // Tried as `filter` and `count`: in the closure nothing is known of the engine, so what `live` asks stays open.
        for _ in 0..self.lives {
            if live(&mut engine, self.cell, Count { value: 1 }).is_ok() {
                lived += 1;
            }
        }
        lived
    }

    // The lives of so many engines, one after the other over the same cells.
    fn rounds(self, heap: Global, places: &mut [Count], engines: u32) -> Result<u64, AllocError>
        requires { self.cell < length places.old }
        ensures { IfOk result (λ n. n ≡ engines * self.lives) }
    {
        let mut lived = 0;
        for _ in 0..engines {
            let room = Room::reserve(heap)?;
            lived += u64::from(self.round(room, places));
        }
        Ok(lived)
    }
}

// On each of so many engines, so many lives beside so many tasks that are alive, task 0 among them; answers how many lives were
// accepted throughout. Each life is on the last of the cells, and the other tasks are on the others.
pub fn count_lives(
    heap: Global,
    cells: u16,
    alive: u16,
    lives: u16,
    engines: u32,
) -> Result<u64, AllocError>
    ensures { IfOk result (λ n. n ≡ (if fits cells alive lives then engines * lives else 0)) }
{
    let Some(crowd) = Crowd::new(cells, alive, lives) else {
        // What does not fit is not begun, and so no life of it is counted.
        return Ok(0);
    };
    let mut places = Vec::from_elem(heap, Count::at_rest(), usize::from(cells))?;
    crowd.rounds(heap, &mut places, engines)
}

// The same for a caller in another language. C has no `Result`: it gets 0 where memory is wanting.
#[unsafe(no_mangle)]
pub extern "C" fn palmcroquet_lives(
    heap: Global,
    cells: u16,
    alive: u16,
    lives: u16,
    engines: u32,
) -> u64
    ensures { (result ≡ (if fits cells alive lives then engines * lives else 0)) ⊎ (result ≡ 0) }
{
    count_lives(heap, cells, alive, lives, engines).unwrap_or(0)
}
