//! The text of a set.
ghost use Rattle.std.specs.Prelude.{Some};
ghost use Rattle.ipnetwork_family.specs.Family.{text_of};
ghost use Rattle.ipnetwork_sets.specs.Texts.{lines_of};

use crate::address_set::AddressSet;
use ipnetwork_family::{Address, Network};
use std::fmt;

/// Prints the canonical texts of the blocks, in ascending order, each on a line of its own: a list
/// file of the set.
impl<A: Address> fmt::Display for AddressSet<Network<A>> {
    ghost output = { λ set. Some (lines_of (text_of A.family) set) };

    ghost styled_output = { λ set _. Some (lines_of (text_of A.family) set) };

    fn fmt<W: fmt::Write>(&self, f: &mut fmt::Formatter<W>) -> fmt::Result {
        let blocks = self.blocks();
        for block in blocks {
            f.write_str(block.canonical().as_str())?;
            f.write_str("\n")?;
        }
        Ok(())
    }
}
