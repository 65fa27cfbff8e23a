ghost use Rattle.std.specs.Prelude.{◌≡◌, ℕ, ◌≤◌, length, take, drop, IfOk, MatchResult};
ghost use Rattle.std.specs.Option.{option_map};
ghost use Rattle.std.specs.Result.{result_err};
ghost use Rattle.table.specs.Limits.{device_limit};
ghost use Rattle.table.specs.Model.{entries};
ghost use Rattle.transition.specs.Laws.{Smooth};
ghost use Rattle.transition.specs.Model.{number_of, refusal, refusal_in, writings_of};
ghost use Rattle.transition.specs.Plans.{plan};
ghost use Rattle.transition.specs.Writes.{moment};

use crate::count::Extent;
use crate::pass::{Drops, Puts, fill};
use crate::refusal::Refusal;
use crate::write::Write;
use table::Table;

// Going over from an old table to a new one.
#[derive(Clone, Copy)]
pub struct Transition<'a> {
    pub old: &'a Table,
    pub new: &'a Table,
}

impl<'a> Transition<'a> {
    // From one table to another.
    pub fn between(old: &'a Table, new: &'a Table) -> Transition<'a>
        ensures old { result.old.now ≡ old.now }
        ensures new { result.new.now ≡ new.now }
    {
        Transition { old, new }
    }
}

impl Transition<'_> {
    // How many writes it takes; refused where both tables together have more prefixes than a device holds lines.
    #[tactic(auto, using(crate::proofs::Ending::plan_count))]
    pub fn plan_len(self) -> Result<usize, Refusal>
        ensures refused { option_map number_of (result_err result) ≡ refusal (entries self.entry.old.now) (entries self.entry.new.now) }
        ensures value { IfOk result (λ n. n ≡ length (plan (entries self.entry.old.now) (entries self.entry.new.now))) }
    {
        let extent = self.measure()?;
        Ok(extent.puts + extent.drops)
    }

    // Writes the plan to the front of a slice, and says how many writes it has.
    // It is refused, before the first is written, where both tables together have more prefixes than a device holds lines,
    // or where the slice has fewer places than there are writes; then every element is as it was.
    #[tactic(auto, using(crate::proofs::Ending::plan_count))]
    pub fn plan_into(self, out: &mut [Write]) -> Result<usize, Refusal>
        ensures refused { option_map number_of (result_err result) ≡ refusal_in (entries self.entry.old.now) (entries self.entry.new.now) (length out.old) }
        ensures count { IfOk result (λ n. n ≡ length (plan (entries self.entry.old.now) (entries self.entry.new.now))) }
        ensures written { IfOk result (λ n. writings_of (take n out.new) ≡ plan (entries self.entry.old.now) (entries self.entry.new.now)) }
        ensures left { MatchResult result (λ n. drop n out.new ≡ drop n out.old) (λ _. out.new ≡ out.old) }
        ensures held { IfOk result (λ n. (k : ℕ) → length (moment (writings_of (take n out.new)) (entries self.entry.old.now) k) ≤ device_limit) }
        ensures smooth { IfOk result (λ n. Smooth (entries self.entry.old.now) (entries self.entry.new.now) (writings_of (take n out.new))) }
    {
        let Extent { puts, drops } = self.measure()?;
        if out.len() < puts + drops {
            return Err(Refusal::SliceTooShort);
        }
        let (front, free) = out.split_at_mut(puts);
        fill::<Puts>(self.new, self.old, front);
        // the free end of the slice takes the drops
        fill::<Drops>(self.old, self.new, &mut free[..drops]);
        Ok(puts + drops)
    }
}
