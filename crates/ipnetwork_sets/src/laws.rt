//! The laws of the operations on sets, for addresses of any number of bits. Each function does
//! nothing; its contract states laws, and the proof of a function that calls it can use them.
ghost use Rattle.ipnetwork_sets.specs.ChangeLaws.{AddedHas, TakenHas};
ghost use Rattle.ipnetwork_sets.specs.CountLaws.{SetAddsUp, CommonPartAddsUp, DifferenceAddsUp, SetHasFewerBlocks};
ghost use Rattle.ipnetwork_sets.specs.Laws.{CommonPartIsShortest, DifferenceIsShortest, FreePartIsShortest, UnionIsShortest};

use ipnetwork_blocks::laws;

/// The blocks of each operation's result have exactly the addresses of the result, each ends before
/// the next begins, no shorter list of networks has the same addresses, and no other list is the
/// least.
pub fn shortest()
    ensures common { CommonPartIsShortest }
    ensures difference { DifferenceIsShortest }
    ensures free { FreePartIsShortest }
    ensures union { UnionIsShortest }
{}

/// The sizes of a set's blocks add up to the count of the set, as do those of the intersection
/// and the difference of two sets.
pub fn sums()
    ensures set { SetAddsUp }
    ensures common { CommonPartAddsUp }
    ensures difference { DifferenceAddsUp }
{
    laws::one_block();
}

/// A set has fewer blocks than there are addresses, so a `u128` can hold their number.
pub fn fewer_blocks()
    ensures { SetHasFewerBlocks }
{
    laws::one_block();
}

/// A set into which a network was inserted has its own addresses and those of the network; a set
/// from which a network was removed has those of its addresses that are not in the network.
pub fn changes()
    ensures inserted { AddedHas }
    ensures removed { TakenHas }
{}
