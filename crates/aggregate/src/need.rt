ghost use Rattle.std.specs.Prelude.{◌≡◌, true, length};
ghost use Rattle.prefix.specs.Bits.{Bits};
ghost use Rattle.fewest.specs.Trees.{Tree, Fork, all_to};
ghost use Rattle.fewest.specs.Needs.{need};
ghost use Rattle.fewest.specs.Edges.{edge};
ghost use Rattle.aggregate.specs.Model.{JoinedTo, Keeps, LiftedTo, UniformTo, among, capped, need_with};

use crate::hops::HopSet;
use table::NextHop;

// How few lines a part of the addresses needs: the lowest number over all next hops that one may come with, and the set of those for which it is
// enough. For any other it is one more. Numbers stop at the highest that the count holds; no table has so many lines.
#[derive(Clone, Copy, PartialEq, Eq, Debug)]
pub struct Need {
    pub(crate) count: u32,
    pub(crate) hops: HopSet,
}

impl Need {
    // Where all addresses go to one next hop: no line, for one who comes with it.
    pub fn uniform(hop: NextHop) -> Need
        ensures value { UniformTo hop result }
        ensures keeps { (t : Tree) → all_to hop t ≡ true → Keeps result t }
    {
        Need {
            count: 0,
            hops: HopSet::only(hop),
        }
    }

    // The lowest number.
    pub fn count(&self) -> u32
        ensures { result ≡ self.now.count }
    {
        self.count
    }

    // Whether it is enough for one who comes with this next hop.
    pub fn reaches(&self, hop: NextHop) -> bool
        ensures { result ≡ among self.now hop }
    {
        self.hops.contains(hop)
    }

    // The lines needed by one who comes with this next hop.
    pub fn lines(&self, hop: NextHop) -> u32
        ensures value { result ≡ need_with self.now hop }
        ensures needed { (t : Tree) → Keeps self.now t → result ≡ capped (need t hop) }
    {
        let count = self.count;
        count.saturating_add(u32::from(!self.reaches(hop)))
    }

    // What two halves need together: this one and the other.
    pub fn join(&self, other: &Need) -> Need
        ensures value { JoinedTo self.now other.now result }
        ensures keeps { (low high : Tree) → Keeps self.now low → Keeps other.now high → Keeps result (Fork low high) }
    {
        let shared = self.hops & other.hops;
        let apart = shared.is_empty();
        let count = self.count.saturating_add(other.count);
        Need {
            count: count.saturating_add(u32::from(apart)),
            hops: shared.or_if(apart, self.hops | other.hops),
        }
    }

    // What is needed so many bits above, where all addresses that part from these bits go to one next hop.
    pub fn above(&self, bits: u8, hop: NextHop) -> Need
        ensures value { LiftedTo bits hop self.now result }
        ensures keeps { (bs : Bits) (t : Tree) → length bs ≡ bits → Keeps self.now t → Keeps result (edge hop bs t) }
    {
        if bits == 0 {
            return *self;
        }
        let count = self.lines(hop);
        let beside = HopSet::only(hop);
        if bits == 1 && !self.reaches(hop) {
            return Need {
                count,
                hops: self.hops | beside,
            };
        }
        Need {
            count,
            hops: beside,
        }
    }
}
