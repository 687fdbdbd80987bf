ghost use Rattle.std.specs.Prelude.{◌≡◌, ◌+◌, ◌-◌, ◌<◌, ◌≤◌, map, length};
ghost use Rattle.order.specs.Counting.{uncounted, with_open, Counted, Older, Untold};
ghost use Rattle.order.specs.Records.{complete};

use crate::state::State;
use crate::task::Task;

impl Task {
    // Whether it and all its descendants are finished.
    pub(crate) fn is_complete(&self) -> bool
        ensures { result ≡ complete self.now }
    {
        self.state == State::Finished && self.open == 0
    }

    // It has made a child.
    pub(crate) fn open_child(&mut self)
        requires { self.old.open ≤ 64 }
        ensures { self.new ≡ with_open self.old (self.old.open + 1) }
    {
        self.open += 1;
    }

    // One of its open children has become complete.
    fn close_child(&mut self)
        requires { 0 < self.old.open }
        ensures { self.new ≡ with_open self.old (self.old.open - 1) }
    {
        self.open -= 1;
    }
}

// Where the task that changed has become complete, its parent has one open child less, and may be complete with that.
pub(crate) fn tell_ancestors(tasks: &mut [Task], changed: usize)
    requires within { changed < length tasks.old }
    requires older { Older tasks.old }
    requires untold { Untold tasks.old changed }
    ensures kept { map uncounted tasks.new ≡ map uncounted tasks.old }
    ensures counted { Counted tasks.new }
{
    let mut x = changed;
    while x > 0 && tasks[x].is_complete() {
        x = tasks[x].parent as usize;
        tasks[x].close_child();
    }
}
