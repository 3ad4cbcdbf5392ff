//! The laws of unions and of least lists, for addresses of any width. Each function's contract is a
//! law: the function does nothing, and a proof that calls it may use the law.
ghost use Rattle.ipnetwork_blocks.specs.AggregateIpLaws.{IpAggregateHasNetworks};
ghost use Rattle.ipnetwork_blocks.specs.AggregateLaws.{UnionOfNone, UnionOfList, AggregateHasUnion, AggregateIsApart, AggregateHasOneBlock, AggregateHasNetworks, AggregateBlocksAreNeeded, AggregateIsLeast};
ghost use Rattle.ipnetwork_blocks.specs.LeastListLaws.{RangeIsShortest};

use ipnetwork::laws;

/// No address lies in the union of an empty list. An address lies in the union of a non-empty list
/// exactly if it is a member of the first network or lies in the union of the others.
pub fn unions()
    ensures none { UnionOfNone }
    ensures list { UnionOfList }
{}

/// The aggregate has the same union as the networks.
pub fn same_union()
    ensures { AggregateHasUnion }
{}

/// Each block of the aggregate ends before the next one begins. An address of the union therefore
/// lies in exactly one of them, and a network lies in the union exactly if it lies in one of them.
pub fn one_block()
    ensures apart { AggregateIsApart }
    ensures one { AggregateHasOneBlock }
    ensures networks { AggregateHasNetworks }
{}

/// No list of networks with the same union is shorter than the aggregate: a network of the list
/// lies in each block of the aggregate.
pub fn least()
    ensures needed { AggregateBlocksAreNeeded }
    ensures least { AggregateIsLeast }
{}

/// A network of either family lies in the union of networks exactly if it lies in one block of
/// their aggregate.
pub fn ip_one_block()
    ensures networks { IpAggregateHasNetworks }
{
    one_block();
    laws::each_asks_its_family();
}

/// The blocks of a range have exactly its addresses, and each ends before the next one begins. No
/// list of networks with the same addresses is shorter, and no other list is the least.
pub fn ranges_are_shortest()
    ensures range { RangeIsShortest }
{}
