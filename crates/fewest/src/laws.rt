ghost use Rattle.fewest.specs.Examples.{Small, SmallEdges};
ghost use Rattle.fewest.specs.Laws.{BestIs, Chosen, CountIs, Determined, EdgeKept, EdgeLines, EdgeSends, HopsAmong, InOrder, Joined, KeepsSound, LeastIs, MeetIs, NoneFewer, SendingDecides, SendsAs, ShapeIsFree, ShortIsShortest, TreeHops, TreeSends, TreeUniform, UniformKept};
ghost use Rattle.fewest.specs.NearMisses.{EagerIsAnother, JoiningFallsShort};

// The definitions on small trees and tables.
pub fn fewest_by_example()
    ensures trees { Small }
    ensures edges { SmallEdges }
{
    ()
}

// The tree of beginnings says where each address goes.
#[tactic(auto, using(crate::proofs::Rivals::tree_sends, crate::proofs::Rivals::tree_hops, crate::proofs::Rivals::tree_uniform))]
pub fn trees_are_beginnings()
    ensures sends { TreeSends }
    ensures hops { TreeHops }
    ensures uniform { TreeUniform }
{
    ()
}

// The prescribed table sends every address as the wanted one does, is sound and in order, has no next hops but 0 and those of the wanted table,
// and has as many lines as are needed.
pub fn prescribed_is_right()
    ensures sends { SendsAs }
    ensures sound { KeepsSound }
    ensures order { InOrder }
    ensures hops { HopsAmong }
    ensures count { CountIs }
    ensures best { BestIs }
{
    ()
}

// Every table that sends the same has at least as many lines, whatever lines, next hops and lengths it has.
pub fn none_has_fewer()
    ensures rival { NoneFewer }
    ensures shortest { ShortIsShortest }
{
    ()
}

// The fewest lines, and which they are, depend on nothing but where addresses go: not on the table's lines, nor on the shape of the tree.
pub fn sending_decides()
    ensures tables { SendingDecides }
    ensures trees { ShapeIsFree }
{
    ()
}

// The lowest need and the next hops that reach it determine need; both come from the two halves, and so does the choice.
pub fn need_is_kept()
    ensures least { LeastIs }
    ensures determined { Determined }
    ensures uniform { UniformKept }
    ensures meet { MeetIs }
    ensures joined { Joined }
    ensures chosen { Chosen }
{
    ()
}

// Where an edge of any number of bits sends addresses, what it does to need, and which lines it brings.
pub fn edges_are_short()
    ensures sends { EdgeSends }
    ensures kept { EdgeKept }
    ensures lines { EdgeLines }
{
    ()
}

// What comes near: joining neighbours again and again does not reach the fewest, and a line written as soon as it costs nothing gives another
// table with as few.
#[tactic(auto, using(crate::proofs::NearMisses::falls_short, crate::proofs::NearMisses::eager_is_another))]
pub fn near_misses_differ()
    ensures joining { JoiningFallsShort }
    ensures eager { EagerIsAnother }
{
    ()
}
