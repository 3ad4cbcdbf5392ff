//! What is printed for the network of a line.
ghost use Rattle.log_programs.specs.Unmapping.{asked_network};
ghost use Rattle.cidr_join.specs.Joins.{FindsBy, FindsEither};

use crate::found::Found;
use crate::lengths::Lengths;
use crate::routes::Routes;
use ipnetwork::IpNetwork;
use log_programs::unmapping::asked_network;

/// What decides what is printed for the network of a line.
#[derive(Drop)]
pub enum Answers<'a> {
    /// The value of the longest network of a list that contains it.
    Values(Routes<'a>),
    /// That network.
    Networks(Routes<'a>),
    /// The block that contains it, of one length for each family.
    Blocks(Lengths),
}

impl<'a> Answers<'a> {
    /// Returns what is printed for a network. If `mapped`, for a network of IPv4-mapped addresses,
    /// it is what is printed for that of their IPv4 addresses, unless that is nothing. Does not
    /// allocate.
    pub(crate) fn find(&self, network: &IpNetwork, mapped: bool) -> Found<'a>
        ensures { FindsEither self.now (asked_network mapped network.now) network.now result }
    {
        if mapped {
            self.find_either(asked_network(true, *network), *network)
        } else {
            self.find_one(*network)
        }
    }

    // Returns what is printed for the first network or, if that is nothing, for the second.
    fn find_either(&self, first: IpNetwork, second: IpNetwork) -> Found<'a>
        ensures { FindsEither self.now first second result }
    {
        if first == second {
            return self.find_one(first);
        }
        match self.find_one(first) {
            Found::Nothing => self.find_one(second),
            found => found,
        }
    }

    // Returns what is printed for a network as it is.
    fn find_one(&self, asked: IpNetwork) -> Found<'a>
        ensures { FindsBy self.now asked result }
    {
        match self {
            Answers::Values(routes) => match routes.longest(asked) {
                Some((_, value)) => Found::Value(value),
                None => Found::Nothing,
            },
            Answers::Networks(routes) => match routes.longest(asked) {
                Some((network, _)) => Found::Network(network),
                None => Found::Nothing,
            },
            Answers::Blocks(lengths) => lengths.block(asked),
        }
    }
}
