ghost use Rattle.std.specs.Prelude.{◌≡◌};
ghost use Rattle.order.specs.Records.{parent_at};
ghost use Rattle.order.specs.Tasks.{ancestor, earlier};
ghost use Rattle.order.specs.View.{Known, view};

use crate::table::Table;

// The table and known numbers as parameters: a struct of them would be made anew for each question and taken apart in it.
impl Table {
    fn parent(&self, t: u16) -> u16
        requires { Known self.now t }
        ensures { result ≡ parent_at self.now.tasks.items t }
    {
        self.tasks[t as usize].parent
    }

    // Whether u is t's parent, or its parent's parent, and so on. A parent has a lower number than its children.
    pub(crate) fn is_ancestor(&self, u: u16, t: u16) -> bool
        requires { Known self.now u × Known self.now t }
        ensures { result ≡ ancestor (view self.now) u t }
    {
        let mut b = t;
        while b > u {
            b = self.parent(b);
        }
        b < t && b == u
    }

    // Whether u comes before t in program order, neither being an ancestor of the other.
    // The higher number climbs, so the two meet at their nearest common ancestor, and the last to arrive there came from the lower branch:
    // u is earlier where that is u and t has climbed as well.
    pub(crate) fn is_earlier(&self, u: u16, t: u16) -> bool
        requires { Known self.now u × Known self.now t }
        ensures { result ≡ earlier (view self.now) u t }
    {
        let mut a = u;
        let mut b = t;
        let mut lower = false;
        while a != b {
            if a > b {
                a = self.parent(a);
                lower = b != t;
            } else {
                b = self.parent(b);
                lower = false;
            }
        }
        lower
    }
}
