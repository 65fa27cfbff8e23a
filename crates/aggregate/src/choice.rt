ghost use Rattle.std.specs.Prelude.{◌≡◌};
ghost use Rattle.fewest.specs.Trees.{Tree, Fork};
ghost use Rattle.fewest.specs.Prescribed.{prescribed};
ghost use Rattle.fewest.specs.Laws.{Chooses, lines_by};
ghost use Rattle.aggregate.specs.Model.{Keeps, among};

use crate::need::Need;
use table::NextHop;

// The next hop of the line that is written at a place whose halves need so many lines, for one who comes to it with a given next hop; none where
// no line is written. A line saves one only where both halves can do with the same next hop and neither with the given one; then the lowest is taken.
pub fn choose(low: &Need, high: &Need, given: NextHop) -> Option<NextHop>
    ensures value { Chooses (among low.now) (among high.now) given result }
    ensures lines { (l h : Tree) → Keeps low.now l → Keeps high.now h → prescribed (Fork l h) given ≡ lines_by result given (prescribed l) (prescribed h) }
{
    // both are asked, since a branch between them would often be guessed wrong
    if low.reaches(given) | high.reaches(given) {
        None
    } else {
        (low.hops & high.hops).lowest()
    }
}
