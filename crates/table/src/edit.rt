ghost use Rattle.std.specs.Prelude.{◌≡◌, ◌+◌, ◌<◌, ◌≤◌, [], map, length, is_ok, IfOk, if◌then◌else◌, None, MatchResult, OnErr};
ghost use Rattle.prefix.specs.Model.{bits};
ghost use Rattle.table.specs.Tables.{at, put, without};
ghost use Rattle.table.specs.Routes.{entry_of};
ghost use Rattle.table.specs.Model.{entries, room};

use crate::route::{NextHop, Route};
use crate::table::Table;
use prefix::Prefix;
use std::alloc::{AllocError, Global};
use std::mem;

impl Table {
    // A table of no routes.
    #[tactic(auto, unfolding(crate::specs::Tables::rising))]
    pub fn new(heap: Global) -> Table
        ensures { entries result ≡ [] }
    {
        Table {
            routes: Vec::new(heap),
            networks: Vec::new(heap),
        }
    }

    // How many routes it holds.
    pub fn len(&self) -> usize
        ensures { result ≡ length (entries self.now) }
    {
        self.routes.len()
    }

    // Its routes, in their order.
    pub fn routes(&self) -> &[Route]
        ensures { map entry_of result.now ≡ entries self.now }
    {
        self.routes.as_slice()
    }

    // The next hop of the route with this prefix.
    pub fn get(&self, prefix: Prefix) -> Option<NextHop>
        ensures { result ≡ at (entries self.now) (bits prefix) }
    {
        let i = self.search(prefix).ok()?;
        Some(self.routes[i].next_hop)
    }

    // Gets memory for so many routes more, which puts then need not get.
    // Where there is none, the table is as it was.
    pub fn reserve(&mut self, more: usize) -> Result<(), AllocError>
        ensures same { entries self.new ≡ entries self.old }
        ensures cases { MatchResult result (λ _. more ≤ room self.new) (λ _. room self.old < more) }
        ensures keeps { room self.old ≤ room self.new }
    {
        self.routes.reserve(more)?;
        self.networks.reserve(more)?;
        Ok(())
    }

    // Puts a route, in place of one with the same prefix, whose next hop is given back.
    // It is refused only where its prefix is new and there is no memory for one more; the table is then as it was.
    pub fn put(&mut self, route: Route) -> Result<Option<NextHop>, AllocError>
        ensures value { IfOk result (λ old. old ≡ at (entries self.old) (bits route.prefix)) }
        ensures after { entries self.new ≡ (if is_ok result then put (entry_of route) (entries self.old) else entries self.old) }
        ensures full { OnErr result ((at (entries self.old) (bits route.prefix) ≡ None) × (room self.old ≡ 0)) }
        ensures uses { room self.old ≤ room self.new + 1 }
    {
        match self.search(route.prefix) {
            Ok(i) => {
                let old = mem::replace(&mut self.routes[i], route);
                Ok(Some(old.next_hop))
            }
            Err(i) => {
                self.reserve(1)?;
                // with the memory at hand neither is refused
                self.networks.insert(i, route.prefix.network())?;
                self.routes.insert(i, route)?;
                Ok(None)
            }
        }
    }

    // Takes away the route with this prefix, and gives back its next hop; none where there was none.
    pub fn remove(&mut self, prefix: Prefix) -> Option<NextHop>
        ensures value { result ≡ at (entries self.old) (bits prefix) }
        ensures after { entries self.new ≡ without (bits prefix) (entries self.old) }
        ensures keeps { room self.old ≤ room self.new }
    {
        let i = self.search(prefix).ok()?;
        self.networks.remove(i);
        Some(self.routes.remove(i).next_hop)
    }
}
