ghost use Rattle.std.specs.Prelude.{◌≡◌, ◌≤◌, length, IfOk};
ghost use Rattle.std.specs.Option.{option_map};
ghost use Rattle.std.specs.Result.{result_err};
ghost use Rattle.table.specs.Limits.{device_limit};
ghost use Rattle.table.specs.Model.{entries};
ghost use Rattle.transition.specs.Model.{number_of, refusal};
ghost use Rattle.transition.specs.Plans.{changed, fresh};

use crate::refusal::Refusal;
use crate::transition::Transition;
use table::DEVICE_LIMIT;

// How much of a new table is new.
#[derive(Clone, Copy)]
struct Differing {
    // routes that the old table does not have with the same next hop
    routes: usize,
    // those of them whose prefixes the old table does not have at all
    prefixes: usize,
}

// How many puts and how many drops a plan has.
#[derive(Clone, Copy)]
pub(crate) struct Extent {
    pub(crate) puts: usize,
    pub(crate) drops: usize,
    ghost few_puts: { puts ≤ device_limit },
    ghost few_drops: { drops ≤ device_limit },
}

impl Transition<'_> {
    // Counts the routes of the new table that the old one does not have.
    fn differing(self) -> Differing
        ensures routes { result.routes ≡ length (changed (entries self.entry.old.now) (entries self.entry.new.now)) }
        ensures prefixes { result.prefixes ≡ length (fresh (entries self.entry.old.now) (entries self.entry.new.now)) }
    {
        let mut changed = 0;
        let mut fresh = 0;
        for route in self.new.routes() {
            match self.old.get(route.prefix) {
                Some(next_hop) if next_hop == route.next_hop => {}
                Some(_) => changed += 1,
                None => {
                    changed += 1;
                    fresh += 1;
                }
            }
        }
        Differing {
            routes: changed,
            prefixes: fresh,
        }
    }

    // How many puts and drops it takes. Refused where the old lines, and the new ones whose prefixes the old table does not have,
    // are more than a device holds: they are counted and compared before anything is written.
    #[tactic(auto, using(crate::proofs::Held::as_many_together, crate::proofs::Held::few_changed))]
    pub(crate) fn measure(self) -> Result<Extent, Refusal>
        ensures refused { option_map number_of (result_err result) ≡ refusal (entries self.entry.old.now) (entries self.entry.new.now) }
        ensures puts { IfOk result (λ x. x.puts ≡ length (changed (entries self.entry.old.now) (entries self.entry.new.now))) }
        ensures drops { IfOk result (λ x. x.drops ≡ length (fresh (entries self.entry.new.now) (entries self.entry.old.now))) }
    {
        let differing = self.differing();
        let together = self.old.len().saturating_add(differing.prefixes);
        if together > DEVICE_LIMIT {
            return Err(Refusal::TooManyLines);
        }
        // dropped are the prefixes that both tables have together, less those of the new one
        Ok(Extent {
            puts: differing.routes,
            drops: together - self.new.len(),
        })
    }
}
