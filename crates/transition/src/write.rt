ghost use Rattle.std.specs.Prelude.{◌≡◌, ◌+◌, ◌≤◌, true, is_ok, if◌then◌else◌, OnErr, Some};
ghost use Rattle.table.specs.Model.{entries, room};
ghost use Rattle.transition.specs.Model.{write_text, writing_of};
ghost use Rattle.transition.specs.Writes.{grows, written};

use prefix::Prefix;
use std::alloc::AllocError;
use std::fmt;
use table::{Route, Table};

// One write to a device.
#[derive(Clone, Copy, PartialEq, Eq, Debug)]
pub enum Write {
    // Puts a route, in place of one with the same prefix.
    Put(Route),
    // Drops the route with this prefix.
    Drop(Prefix),
}

impl Write {
    // Carries it out on a table. It is refused only where a put of a new prefix finds no memory; the table is then as it was.
    #[tactic(auto, using(crate::proofs::Lines::has_at))]
    pub fn apply(self, table: &mut Table) -> Result<(), AllocError>
        ensures after { entries table.new ≡ (if is_ok result then written (writing_of self) (entries table.old) else entries table.old) }
        ensures full { OnErr result ((grows (writing_of self) (entries table.old) ≡ true) × (room table.old ≡ 0)) }
        ensures uses { room table.old ≤ room table.new + 1 }
    {
        match self {
            Write::Put(route) => {
                table.put(route)?;
            }
            Write::Drop(prefix) => {
                table.remove(prefix);
            }
        }
        Ok(())
    }
}

// As `put 10.0.0.0/8 3` or `drop 10.0.0.0/8`.
impl fmt::Display for Write {
    ghost output = { λ write. Some (write_text write) };

    fn fmt<W: fmt::Write>(&self, f: &mut fmt::Formatter<W>) -> fmt::Result {
        match self {
            Write::Put(route) => write!(f, "put {} {}", route.prefix, route.next_hop),
            Write::Drop(prefix) => write!(f, "drop {prefix}"),
        }
    }
}
