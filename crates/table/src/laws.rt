ghost use Rattle.table.specs.Examples.{Changes, LookUps, Sending};
ghost use Rattle.table.specs.Model.{AllSound};
ghost use Rattle.table.specs.Laws.{AtPut, AtWithout, CountPut, CountWithout, LinesDecide, Longest, OrderFree, RisingDistinct, RisingOnce, SeenAt, SeenPut, SeenWithout, StaysRising, StaysSound, Topmost};

// The definitions on small tables.
pub fn tables_by_example()
    ensures lookups { LookUps }
    ensures changes { Changes }
    ensures sending { Sending }
{
    ()
}

// A look-up finds the longest line with which the address begins.
#[tactic(auto, using(crate::proofs::Matches::longest))]
pub fn lookup_is_longest()
    ensures { Longest }
{
    ()
}

// A look-up is the topmost of what an address sees length by length.
#[tactic(auto, using(crate::proofs::Tops::topmost, crate::proofs::Picks::seen_at))]
pub fn lookup_is_topmost()
    ensures topmost { Topmost }
    ensures seen { SeenAt }
{
    ()
}

// A put or a drop changes what an address sees at one length only, and what stands at one prefix only.
#[tactic(auto, using(crate::proofs::Picks::seen_put, crate::proofs::Picks::seen_without, crate::proofs::Picks::at_put, crate::proofs::Picks::at_without))]
pub fn change_is_local()
    ensures put { SeenPut }
    ensures drop { SeenWithout }
    ensures put_at { AtPut }
    ensures drop_at { AtWithout }
{
    ()
}

// How many lines there are after a put and after a drop; sound tables stay sound, and rising ones rising.
#[tactic(auto, using(crate::proofs::Counts::count_put, crate::proofs::Counts::count_without, crate::proofs::Counts::stays_sound, crate::proofs::Rising::stays_rising, crate::proofs::Rising::rising_distinct))]
pub fn change_keeps_sound()
    ensures count_put { CountPut }
    ensures count_drop { CountWithout }
    ensures sound { StaysSound }
    ensures rising { StaysRising }
    ensures distinct { RisingDistinct }
{
    ()
}

// The order of the lines does not matter to a look-up.
#[tactic(auto, using(crate::proofs::Alike::order_free))]
pub fn order_is_free()
    ensures { OrderFree }
{
    ()
}

// Tables with the same lines send the same, and only one of them rises.
#[tactic(auto, using(crate::proofs::Alike::lines_decide_lem, crate::proofs::Alike::rising_once))]
pub fn lines_decide()
    ensures alike { LinesDecide }
    ensures once { RisingOnce }
{
    ()
}

// Every table of the code is sound for addresses of 32 bits, and its lines rise.
#[tactic(auto, using(crate::proofs::Held::all_sound))]
pub fn tables_are_sound()
    ensures { AllSound }
{
    ()
}
