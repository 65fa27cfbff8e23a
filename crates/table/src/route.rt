ghost use Rattle.std.specs.Prelude.{◌≤◌};

use prefix::Prefix;

// Where a packet goes; 0 is: it is dropped.
pub type NextHop = u8;

// A line of a table: addresses that begin with the prefix go to the next hop.
#[derive(Clone, Copy, PartialEq, Eq, Debug)]
pub struct Route {
    pub prefix: Prefix,
    pub next_hop: NextHop,
    ghost octet: { next_hop ≤ 255 },
}
