ghost use Rattle.std.specs.Prelude.{◌≡◌};
ghost use Rattle.prefix.specs.Model.{address_bits};
ghost use Rattle.table.specs.Tables.{find, sends};
ghost use Rattle.table.specs.Model.{entries};

use crate::lookups::Match;
use crate::route::NextHop;
use crate::table::Table;
use prefix::Prefix;

impl Table {
    // Longest-prefix match: the longest route with which the address begins.
    // The last route that comes no later than the address is it, or parts from the address at some bit;
    // then no route longer than what both share can match, and the search goes on with that much of the address.
    // So there is at most one binary search for a length.
    pub fn lookup(&self, address: u32) -> Option<Match>
        ensures { result ≡ find (entries self.now) (address_bits address) }
    {
        let host = Prefix::host(address);
        let mut key = host;
        'shorter: loop {
            let last = self.last_up_to(key)?;
            let route = self.routes[last];
            let shared = route.prefix.common(host);
            if shared == route.prefix.len() {
                return Some(Match {
                    len: shared,
                    next_hop: route.next_hop,
                });
            }
            key = host.cut(shared);
        }
    }

    // Where an address goes: to the next hop of the longest route, and with none it is dropped.
    pub fn next_hop(&self, address: u32) -> NextHop
        ensures { result ≡ sends (entries self.now) (address_bits address) }
    {
        self.lookup(address).map_or(0, |found| found.next_hop)
    }
}
