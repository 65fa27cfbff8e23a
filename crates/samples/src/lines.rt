ghost use Rattle.std.specs.Prelude.{◌≡◌, ◌<◌, length, IfOk, OnErr};
ghost use Rattle.table.specs.Routes.{entry_of};
ghost use Rattle.table.specs.Model.{entries};
ghost use Rattle.samples.specs.Lines.{line_of, filled};

use prefix::Prefix;
use std::alloc::{AllocError, Global};
use table::{NextHop, Route, Table};

// A line written short: an address, how many of its bits count, and the next hop.
pub type Line = (u32, u8, NextHop);

// The route that a line is.
pub fn route(line: Line) -> Route
    ensures { entry_of result ≡ line_of line }
{
    let (address, len, next_hop) = line;
    Route {
        prefix: Prefix::host(address).cut(len),
        next_hop,
    }
}

// A table of lines, put one after the other; refused only where there are lines, and no memory for one of them.
pub fn table_of(heap: Global, lines: &[Line]) -> Result<Table, AllocError>
    ensures table { IfOk result (λ t. entries t ≡ filled lines.now) }
    ensures full { OnErr result (0 < length lines.now) }
{
    let mut table = Table::new(heap);
    for line in lines {
        table.put(route(*line))?;
    }
    Ok(table)
}
