ghost use Rattle.std.specs.Prelude.{◌≡◌, ℕ, ◌-◌, ◌<◌, Bool, not, map, length, filter, nat_lt};
ghost use Rattle.prefix.specs.Model.{address_width};
ghost use Rattle.table.specs.Model.{entries};
ghost use Rattle.table.specs.Routes.{entry_of};
ghost use Rattle.table.specs.Tables.{Entries, Entry, has, holds};
ghost use Rattle.transition.specs.Model.{writing_of, writings_of};
ghost use Rattle.transition.specs.Passes.{GoesThrough, longest_through, shortest_through};
ghost use Rattle.transition.specs.Plans.{by_length, dropping, is_longer, sorted_by};
ghost use Rattle.transition.specs.Writes.{Writing, Put as putting};

use crate::write::Write;
use prefix::LENGTHS;
use table::{Route, Table};

// A pass over the lines of a table that writes a part of a plan: one write for each line that another table calls for, length by length.
pub(crate) trait Pass {
    // whether lines of a length are written before those of another
    ghost first: { ℕ → ℕ → Bool };

    // the length whose lines have a turn
    ghost length_at: { ℕ → ℕ };

    // whether a line is written, where the other table is this
    ghost wants: { Entries → Entry → Bool };

    // the write of a line
    ghost writing: { Entry → Writing };

    fn length_at(turn: u8) -> u8
        requires { turn < LENGTHS }
        ensures { result ≡ length_at turn };

    fn wants(route: &Route, other: &Table) -> bool
        ensures { result ≡ wants (entries other.now) (entry_of route.now) };

    fn write(route: &Route) -> Write
        ensures { writing_of result ≡ writing (entry_of route.now) };

    // the turns keep to the order, and no length is left out
    ghost through: { GoesThrough address_width first length_at };
}

// Puts the lines of the new table that the old one does not have, next hop and all, the longest first.
pub(crate) enum Puts {}

impl Pass for Puts {
    ghost first = { is_longer };

    ghost length_at = { λ turn. address_width - turn };

    ghost wants = { λ old e. not (holds e old) };

    ghost writing = { putting };

    ghost through = { longest_through address_width };

    fn length_at(turn: u8) -> u8 {
        LENGTHS - 1 - turn
    }

    #[tactic(auto, using(crate::proofs::Held::held_by))]
    fn wants(route: &Route, old: &Table) -> bool {
        old.get(route.prefix) != Some(route.next_hop)
    }

    fn write(route: &Route) -> Write {
        Write::Put(*route)
    }
}

// Drops the lines of the old table whose prefixes the new one does not have, the shortest first.
pub(crate) enum Drops {}

impl Pass for Drops {
    ghost first = { nat_lt };

    ghost length_at = { λ turn. turn };

    ghost wants = { λ new e. not (has e.prefix new) };

    ghost writing = { dropping };

    ghost through = { shortest_through address_width };

    fn length_at(turn: u8) -> u8 {
        turn
    }

    #[tactic(auto, using(crate::proofs::Lines::has_at))]
    fn wants(route: &Route, new: &Table) -> bool {
        new.get(route.prefix).is_none()
    }

    fn write(route: &Route) -> Write {
        Write::Drop(route.prefix)
    }
}

// Fills a slice with the writes of a pass, of equally long lines the lower bits first: they stand so in the table. There are as many places as writes.
pub(crate) fn fill<P: Pass>(table: &Table, other: &Table, out: &mut [Write])
    requires { length out.old ≡ length (filter (P.wants (entries other.now)) (entries table.now)) }
    ensures { writings_of out.new ≡ map P.writing (sorted_by (by_length P.first) (filter (P.wants (entries other.now)) (entries table.now))) }
{
    let routes = table.routes();
    let mut n = 0;
    'lengths: for turn in 0..LENGTHS {
        let length = P::length_at(turn);
        'routes: for route in routes {
            if n == out.len() {
                break 'lengths;
            }
            if route.prefix.len() != length || !P::wants(route, other) {
                continue 'routes;
            }
            out[n] = P::write(route);
            n += 1;
        }
    }
}
