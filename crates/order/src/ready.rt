ghost use Rattle.order.specs.Ready.{Listed};
ghost use Rattle.order.specs.View.{view};

use crate::refusal::Refusal;
use crate::room::MOST_TASKS;
use crate::table::Table;
use arrayvec::ArrayVec;

impl Table {
    // Lists the tasks that may start now and says how many they are.
    pub fn ready(&self, list: &mut [u16]) -> Result<usize, Refusal>
        ensures { Listed (view self.now) list.old result list.new }
    {
        if list.len() < MOST_TASKS {
            return Err(Refusal::ShortList);
        }
        // Pushed and not collected: `collect` asks for an allocator and may fail, and this call has none and needs none.
        let mut startable = ArrayVec::<u16, MOST_TASKS>::new();
        for t in 0..self.len() {
            if self.may_start(t).is_ok() {
                startable.push(t);
            }
        }
        let count = startable.len();
        list[..count].copy_from_slice(startable.as_slice());
        Ok(count)
    }
}
