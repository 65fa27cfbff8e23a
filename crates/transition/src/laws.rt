ghost use Rattle.transition.specs.Examples.{Small};
ghost use Rattle.transition.specs.Laws.{BothWays, ByDifference, CrowdedIs, Ends, EndsRising, LookUpsOnce, NeverMore, NoWrongMoment, NoneIdle, NoneTwice, OnceNew, OwnWrites, PlanCount, PlanIs, PlanIsSmooth, Untouched, WithinDevice};
ghost use Rattle.transition.specs.NearMisses.{Refuted, WrongMoments};
ghost use Rattle.transition.specs.Plans.{plan};

// The definitions on small tables.
pub fn plans_by_example()
    ensures { Small }
{
    ()
}

// At every moment of a plan each address goes where it went before or where it goes after, and once it goes the new way it stays.
pub fn no_wrong_moment()
    ensures moments { NoWrongMoment plan }
    ensures once { OnceNew plan }
    ensures lookups { LookUpsOnce plan }
{
    ()
}

// What an address finds depends only on the writes of prefixes that it begins with; with none of them it notices nothing.
#[tactic(auto, using(crate::proofs::Own::own_writes, crate::proofs::Own::untouched))]
pub fn writes_are_local()
    ensures own { OwnWrites }
    ensures untouched { Untouched }
{
    ()
}

// At the end of a plan the table is the new one.
pub fn plan_ends_in_new()
    ensures lines { Ends }
    ensures table { EndsRising }
{
    ()
}

// At no moment are there more lines than the old table and the new lines whose prefixes it does not have, so that what is not refused never
// takes a device beyond what it holds; and these are as many both ways.
#[tactic(auto, using(crate::proofs::Ending::never_more, crate::proofs::Ending::within_device, crate::proofs::Ending::crowded_is, crate::proofs::Ending::both_ways_alike))]
pub fn lines_are_bounded()
    ensures moments { NeverMore }
    ensures device { WithinDevice }
    ensures refused { CrowdedIs }
    ensures both_ways { BothWays }
{
    ()
}

// Each write changes the table when its turn comes, and no prefix is written twice.
#[tactic(auto, using(crate::proofs::Idle::none_idle, crate::proofs::Idle::none_twice))]
pub fn no_write_is_idle()
    ensures busy { NoneIdle }
    ensures apart { NoneTwice }
{
    ()
}

// The plan is the one list of writes that the rules prescribe, and depends only on what differs.
pub fn plan_is_prescribed()
    ensures only { PlanIs }
    ensures difference { ByDifference }
    ensures count { PlanCount }
{
    ()
}

// Between two tables in order, as those of the code are, the plan is smooth: no wrong moment, once new always new, the new table at the end,
// lines bounded on the way, no idle write, no prefix twice.
pub fn plan_is_smooth()
    ensures { PlanIsSmooth }
{
    ()
}

// Orders of writes that come near have wrong moments.
#[tactic(auto, using(crate::proofs::Misses::examples, crate::proofs::Misses::refuted))]
pub fn near_misses_are_wrong()
    ensures examples { WrongMoments }
    ensures refuted { Refuted }
{
    ()
}
