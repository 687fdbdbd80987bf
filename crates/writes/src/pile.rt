ghost use Rattle.std.specs.Prelude.{◌≡◌};
ghost use Rattle.writes.specs.Writes.{all_asked, all_changed, Answered};
ghost use Rattle.writes.specs.Pile.{gauge_of, pile_verdict, after_write};

use crate::each::write_each;
use crate::turn::Turn;
use elements::element::Element;
use layers::allowance::Allowance;
use layers::behind::WriteBehind;
use layers::lent::Lent;
use stores::chain::ChainStore;

// An allowance over a write-behind over a chain store.
pub type Pile<'a, 'b, E> = Allowance<WriteBehind<E, Lent<'b, ChainStore<'a, E>>>>;

// The same on such a pile, where the numbers before tell every answer and the numbers after.
pub fn write_pile<'a, 'b, E: Element>(pile: &mut Pile<'a, 'b, E>, turns: &mut [Turn<E>])
    ensures answered { Answered pile_verdict after_write (gauge_of pile.old) turns.new }
    ensures after { gauge_of pile.new ≡ all_changed after_write (gauge_of pile.old) turns.new }
    ensures asked { all_asked turns.new ≡ all_asked turns.old }
{
    write_each(pile, turns)
}
