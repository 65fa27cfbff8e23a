ghost use Rattle.prefix.specs.Laws.{ByNumber, Canonical, Examples, Faithful, Numbered, Ordered};

// The order of prefixes is by bits as a number, and then by length, at every width.
#[tactic(auto, using(crate::proofs::Numbers::by_number))]
pub fn order_is_by_number()
    ensures { ByNumber }
{
    ()
}

// Bits and numbers say the same, at every width.
#[tactic(auto, using(crate::proofs::Numbers::numbered))]
pub fn numbers_are_bits()
    ensures { Numbered }
{
    ()
}

// A network address and a length are a prefix where only zeros follow the first bits.
#[tactic(auto, using(crate::proofs::Joins::canonical_clean))]
pub fn canonical_is_clean()
    ensures { Canonical }
{
    ()
}

// The order of prefixes is strict and total.
#[tactic(auto, using(crate::proofs::Order::before_irrefl, crate::proofs::Order::before_trans, crate::proofs::Order::before_total))]
pub fn order_is_total()
    ensures { Ordered }
{
    ()
}

// Prefixes with the same bits are equal.
#[tactic(auto, using(crate::proofs::Meaning::faithful))]
pub fn bits_are_all()
    ensures { Faithful }
{
    ()
}

// The definitions on small examples.
#[tactic(auto, unfolding(crate::specs::Bits::begins, crate::specs::Bits::same, crate::specs::Bits::common, crate::specs::Bits::before, crate::specs::Bits::bits_of, crate::specs::Bits::number))]
pub fn bits_by_example()
    ensures { Examples }
{
    ()
}
