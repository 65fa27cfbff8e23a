ghost use Rattle.std.specs.Prelude.{◌≡◌, length};
ghost use Rattle.prefix.specs.Bits.{Bits};
ghost use Rattle.prefix.specs.Model.{bits as prefix_bits};
ghost use Rattle.fewest.specs.Trees.{Tree};
ghost use Rattle.fewest.specs.Prescribed.{prescribed};
ghost use Rattle.fewest.specs.Edges.{along, edge};
ghost use Rattle.fewest.specs.Laws.{between};
ghost use Rattle.aggregate.specs.Model.{Keeps, among};
ghost use Rattle.aggregate.specs.Routes.{Brought, Surrounds, edge_len, line_of, side_at};

use crate::need::Need;
use fewest::Along;
use prefix::Prefix;
use table::{NextHop, Route};

impl Need {
    // What is written along an edge of so many bits down to a place with this need, where all addresses that part from these bits go to one next
    // hop, for one who comes to its upper end with a given one.
    pub fn along(&self, bits: u8, hop: NextHop, given: NextHop) -> Along
        ensures value { result ≡ along bits hop (among self.now) given }
        ensures lines { (bs : Bits) (t : Tree) → length bs ≡ bits → Keeps self.now t → prescribed (edge hop bs t) given ≡ between result hop given bs (prescribed t) }
    {
        if bits == 0 || given == hop {
            return Along::Nothing;
        }
        // whether the lines stand on the other sides: by whether their next hop reaches the need at the lower end, and whether the given one does
        let aside = match bits {
            1 => !self.reaches(hop) || self.reaches(given),
            2 => !self.reaches(hop) && self.reaches(given),
            _ => false,
        };
        if aside { Along::Sides } else { Along::Top }
    }
}

// The way down to a node, on whose other sides all addresses go to one next hop.
#[derive(Clone, Copy, PartialEq, Eq, Debug)]
pub struct Edge {
    // Its lower end.
    pub node: Prefix,
    // How many of the node's bits its upper end has; none of the edge's own are left if the node has no more.
    pub from: u8,
    // Where the addresses go that part from its bits.
    pub hop: NextHop,
}

// The routes that an edge brings. There are never more than two.
#[derive(Clone, Copy, PartialEq, Eq, Debug)]
pub struct EdgeRoutes {
    // Those that come before the routes at and below its lower end, in the order of tables.
    pub before: [Option<Route>; 2],
    // Those that come after them.
    pub after: [Option<Route>; 2],
    // The next hop that one goes on with at the lower end.
    pub onward: NextHop,
}

impl Edge {
    // How many bits of its own it has.
    pub fn len(self) -> u8
        ensures { result ≡ edge_len self }
    {
        self.node.len().saturating_sub(self.from)
    }

    // The route on the other side of the node's bit at a place, if that bit is the given one: the route comes before the node in the order of
    // tables if the bit is 1, and after it if it is 0. There is none past the end of the node.
    fn other_side(self, place: u8, bit: bool) -> Option<Route>
        ensures { line_of result ≡ side_at bit self.hop (prefix_bits self.node) place }
    {
        if self.node.bit(place)? != bit {
            return None;
        }
        let prefix = self.node.cut(place).child(!bit)?;
        Some(Route {
            prefix,
            next_hop: self.hop,
        })
    }

    // The routes along the edge, for one who comes to its upper end with a given next hop, where the node needs so many lines.
    pub fn routes(self, need: &Need, given: NextHop) -> EdgeRoutes
        ensures value { Brought (prefix_bits self.node) self.from self.hop given (along (edge_len self) self.hop (among need.now) given) result }
        ensures lines { (t : Tree) → Keeps need.now t → Surrounds (prefix_bits self.node) self.from self.hop given result t }
    {
        match need.along(self.len(), self.hop, given) {
            Along::Nothing => EdgeRoutes {
                before: [None, None],
                after: [None, None],
                onward: given,
            },
            Along::Top => EdgeRoutes {
                before: [
                    Some(Route {
                        prefix: self.node.cut(self.from),
                        next_hop: self.hop,
                    }),
                    None,
                ],
                after: [None, None],
                onward: self.hop,
            },
            Along::Sides => {
                let outer = self.from;
                let inner = self.from.saturating_add(1);
                EdgeRoutes {
                    before: [self.other_side(outer, true), self.other_side(inner, true)],
                    after: [self.other_side(inner, false), self.other_side(outer, false)],
                    onward: given,
                }
            }
        }
    }
}
