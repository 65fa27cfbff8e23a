use crate::route::NextHop;

// What a look-up finds: how long the longest route is with which the address begins, and its next hop.
#[derive(Clone, Copy, PartialEq, Eq, Debug)]
pub struct Match {
    pub len: u8,
    pub next_hop: NextHop,
}
