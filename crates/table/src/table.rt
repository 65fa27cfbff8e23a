ghost use Rattle.std.specs.Prelude.{◌≡◌, true, map};
ghost use Rattle.table.specs.Tables.{rising};
ghost use Rattle.table.specs.Routes.{entry_of, network_of};

use crate::route::Route;

// Routes by bits as a number rising and then by length rising, no two with the same bits.
#[derive(PartialEq, Eq, Debug, Drop)]
pub struct Table {
    pub(crate) routes: Vec<Route>,
    // the routes' bits as numbers, close together for the searches
    pub(crate) networks: Vec<u32>,
    ghost ordered: { rising (map entry_of routes.items) ≡ true },
    ghost indexed: { networks.items ≡ map network_of routes.items },
}
