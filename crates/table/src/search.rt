ghost use Rattle.std.specs.Prelude.{◌≡◌, ◌+◌, ◌<◌, true, not, map, length, MatchOption};
ghost use Rattle.prefix.specs.Bits.{before};
ghost use Rattle.prefix.specs.Model.{bits};
ghost use Rattle.table.specs.Tables.{rising};
ghost use Rattle.table.specs.Routes.{entry_of, network_of};
ghost use Rattle.table.specs.Search.{Located, Ranked, prefix_at};
ghost use Rattle.table.specs.Model.{entries};

use crate::route::Route;
use crate::table::Table;
use prefix::Prefix;

// Whether the route at a place stands at the key or before it in the order. Mostly the networks tell.
fn at_or_before(networks: &[u32], routes: &[Route], place: usize, key: Prefix) -> bool
    requires within { place < length routes.now }
    requires indexed { networks.now ≡ map network_of routes.now }
    ensures { result ≡ not (before (bits key) (prefix_at (map entry_of routes.now) place)) }
{
    let network = networks[place];
    if network != key.network() {
        return network < key.network();
    }
    routes[place].prefix.len() <= key.len()
}

// How many routes stand at the key or before it: found by halving, over networks and lengths at once. Halving over the networks alone
// leaves the longer lines of the key's own network, which may be 32, to a search of their own.
fn rank(networks: &[u32], routes: &[Route], key: Prefix) -> usize
    requires ordered { rising (map entry_of routes.now) ≡ true }
    requires indexed { networks.now ≡ map network_of routes.now }
    ensures { Ranked (map entry_of routes.now) (bits key) result }
{
    let mut low = 0;
    let mut high = networks.len();
    while low < high {
        let middle = low + (high - low) / 2;
        if at_or_before(networks, routes, middle, key) {
            low = middle + 1;
        } else {
            high = middle;
        }
    }
    low
}

impl Table {
    // Where the last route stands that comes no later than the key.
    pub(crate) fn last_up_to(&self, key: Prefix) -> Option<usize>
        ensures { MatchOption result (Ranked (entries self.now) (bits key) 0) (λ i. Ranked (entries self.now) (bits key) (i + 1)) }
    {
        rank(&self.networks, &self.routes, key).checked_sub(1)
    }

    // Where the route with this prefix stands, or else where it would.
    pub(crate) fn search(&self, prefix: Prefix) -> Result<usize, usize>
        ensures { Located (entries self.now) (bits prefix) result }
    {
        match self.last_up_to(prefix) {
            None => Err(0),
            Some(i) if self.routes[i].prefix == prefix => Ok(i),
            Some(i) => Err(i + 1),
        }
    }
}
